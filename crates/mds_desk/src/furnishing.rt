//! Creates the room and the desks of a server, all of one opening.
ghost use Rattle.std.specs.Prelude.{◌≡◌, [], IfOk, length, map, replicate};
ghost use Rattle.mds_request.specs.Configuration.{configuration};
ghost use Rattle.mds_snapshot.specs.Opening.{book_of};
ghost use Rattle.mds_desk.specs.Desk.{state_of, new_desks};
ghost use Rattle.mds_desk.specs.Room.{room_of, new_room};

use crate::author::AuthorRoom;
use crate::context::DeskContext;
use crate::desk::Desk;
use crate::shared_cache::SharedCache;
use mds_request::{Config, Routes};
use mds_snapshot::{Blank, OpenFault, OpeningName, Pane, open};
use std::alloc::{AllocError, Global};
use std::sync::{Arc, Wait};

/// A desk for each operator, in the order of the configuration.
fn desks<K: OpeningName>(
    alloc: Global,
    config: &Arc<Config>,
    routes: &Arc<Routes>,
    cache: &SharedCache<K>,
    panes: Vec<Pane<K>>,
) -> Result<Vec<Desk<K>>, AllocError>
    requires { panes.items ≡ replicate (length (configuration config.now.value).operators) [] }
    ensures { IfOk result (λ desks. map state_of desks.items ≡ new_desks (configuration config.now.value)) }
{
    let mut desks = Vec::with_capacity(alloc, panes.len())?;
    for pane in panes {
        let place = desks.len();
        let config = Arc::try_clone(config)?;
        let routes = Arc::try_clone(routes)?;
        let cache = cache.new_ref()?;
        let context = DeskContext {
            alloc,
            config,
            routes,
            cache,
            place,
        };
        desks.push_reserved(Desk::new(context, pane));
    }
    Ok(desks)
}

/// Creates the author's room, without drafts and publications, and a desk for each operator, in the order of the
/// configuration, without vehicles. All are of the one opening of this blank, which K names. They share one response
/// cache, which is empty.
///
/// # Errors
///
/// `NoMemory` where memory ran out, `NoPlace` where there is no slot for a further reader.
pub fn furnish<K: OpeningName, R: Wait>(
    rt: &R,
    alloc: Global,
    config: Config,
    blank: Blank,
) -> Result<(AuthorRoom<K>, Vec<Desk<K>>), OpenFault>
    requires { book_of blank ≡ K.book }
    ensures { IfOk result (λ r. (room_of r.0 ≡ new_room (configuration config)) × (map state_of r.1.items ≡ new_desks (configuration config))) }
{
    let (Ok(config), Ok(routes)) = (Arc::new(alloc, config), Routes::new(alloc)) else {
        return Err(OpenFault::NoMemory);
    };
    let Ok(routes) = Arc::new(alloc, routes) else {
        return Err(OpenFault::NoMemory);
    };
    let (publisher, panes) = open::<K, R>(rt, alloc, blank, config.operators().len())?;
    let Ok(cache) = SharedCache::new(alloc, publisher.note()) else {
        publisher.finish(rt);
        return Err(OpenFault::NoMemory);
    };
    match desks(alloc, &config, &routes, &cache, panes) {
        Ok(desks) => {
            let room = AuthorRoom::new(alloc, config, routes, publisher, cache);
            Ok((room, desks))
        }
        Err(_) => {
            publisher.finish(rt);
            Err(OpenFault::NoMemory)
        }
    }
}
