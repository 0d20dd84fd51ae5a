//! A site: all that answers the requests of a server.
ghost use Rattle.std.specs.Prelude.{◌≡◌, is_some, IfOk, OnOk};
ghost use Rattle.server_page.specs.PageSettings.{IsMadeOf};
ghost use Rattle.server_public.specs.Switch.{is_public};

use journal_commit::{LogName, Space};
use journal_file::Log;
use mds_snapshot::Note;
use server_admission::MachineClock;
use server_control::Counters;
use server_durable::{DurableHall, DurableService};
use server_page::Page;
use server_past::PastFleets;
use server_public::{DocumentSource, PublicCache, PublicDocuments, PublicDocumentsQuery};
use server_state::HallName;
use std::alloc::{AllocError, AllocGlobal, Global};
use std::sync::Wait;

/// All that answers the requests of a server.
#[derive(Drop)]
pub struct Site<'a, K: HallName, N: LogName, L: Log, S: Space, R, E, P> {
    /// The files of the page.
    pub page: Page,
    /// The public documents; none, where the configuration doesn't turn them on.
    pub window: Option<PublicCache<K>>,
    /// The city, at the moments of the machine's clock, with the evaluator of its vehicles.
    pub state: DurableService<K, N, R, E, MachineClock<R>, L, S>,
    /// The past of the city's fleets.
    pub past: PastFleets<P>,
    /// Counts the responses of the city.
    pub counters: &'a Counters,
}

/// The city at the moments of the machine's clock, with the evaluator that judges its vehicles.
pub fn at_machine_clock<K: HallName, N: LogName, L: Log, S: Space, R, E>(
    rt: &R,
    city: DurableHall<K, N, L, S>,
    evaluator: E,
) -> DurableService<K, N, R, E, MachineClock<R>, L, S>
where
    R: Wait + AllocGlobal + Copy + Drop,
    E: Drop,
    ensures { result.city ≡ city }
{
    DurableService {
        rt: *rt,
        alloc: rt.alloc(),
        city,
        evaluator,
        moments: MachineClock(*rt),
    }
}

impl<'a, K, N, L, S, R, E, P> Site<'a, K, N, L, S, R, E, P>
where
    K: HallName,
    N: LogName,
    L: Log,
    S: Space,
    R: Wait + AllocGlobal + Copy + Drop,
    E: Drop,
    P: Drop,
{
    /// The site without public documents.
    fn without_public_documents(
        page: Page,
        state: DurableService<K, N, R, E, MachineClock<R>, L, S>,
        past: PastFleets<P>,
        counters: &'a Counters,
    ) -> Site<'a, K, N, L, S, R, E, P>
        ensures page { result.page ≡ page }
        ensures state { result.state ≡ state }
        ensures past { result.past ≡ past }
    {
        Site {
            page,
            window: None,
            state,
            past,
            counters,
        }
    }

    /// The site with the page as the text of the configuration makes it, and without public documents.
    ///
    /// # Errors
    ///
    /// Out of memory.
    fn with_page(
        alloc: Global,
        state: DurableService<K, N, R, E, MachineClock<R>, L, S>,
        past: PastFleets<P>,
        configuration: &[u8],
        counters: &'a Counters,
    ) -> Result<Site<'a, K, N, L, S, R, E, P>, AllocError>
        ensures state { IfOk result (λ site. site.state ≡ state) }
        ensures past { IfOk result (λ site. site.past ≡ past) }
        ensures page { IfOk result (λ site. IsMadeOf configuration.now site.page.settings) }
    {
        let page = Page::new(alloc, configuration)?;
        Ok(Self::without_public_documents(page, state, past, counters))
    }

    /// Opens the public documents where the configuration's text turns them on.
    ///
    /// # Errors
    ///
    /// Out of memory.
    fn open_public_documents(
        &mut self,
        alloc: Global,
        configuration: &[u8],
    ) -> Result<(), AllocError>
        ensures state { self.new.state ≡ self.old.state }
        ensures past { self.new.past ≡ self.old.past }
        ensures page { self.new.page ≡ self.old.page }
        ensures window { OnOk result (is_some self.new.window ≡ is_public configuration.now) }
    {
        self.window = PublicCache::open(alloc, configuration, &*self)?;
        Ok(())
    }

    /// The site of a city: with the page as the text of the configuration makes it, and with the
    /// public documents where that turns them on. These counters count the city's responses.
    ///
    /// # Errors
    ///
    /// Out of memory.
    pub fn open(
        alloc: Global,
        state: DurableService<K, N, R, E, MachineClock<R>, L, S>,
        past: PastFleets<P>,
        configuration: &[u8],
        counters: &'a Counters,
    ) -> Result<Site<'a, K, N, L, S, R, E, P>, AllocError>
        ensures state { IfOk result (λ site. site.state ≡ state) }
        ensures past { IfOk result (λ site. site.past ≡ past) }
        ensures page { IfOk result (λ site. IsMadeOf configuration.now site.page.settings) }
        ensures window { IfOk result (λ site. is_some site.window ≡ is_public configuration.now) }
    {
        let mut site = Self::with_page(alloc, state, past, configuration, counters)?;
        site.open_public_documents(alloc, configuration)?;
        Ok(site)
    }
}

impl<K: HallName, N: LogName, L: Log, S: Space, R: Wait, E, P> DocumentSource<K>
    for Site<'_, K, N, L, S, R, E, P> {
    fn note(&self) -> Option<Note<K>> {
        self.state.city.note(&self.state.rt)
    }

    fn documents(&self) -> Result<PublicDocuments, AllocError> {
        self.state
            .city
            .read_publications(&self.state.rt, &PublicDocumentsQuery)
    }
}
