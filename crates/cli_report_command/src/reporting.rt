//! Reports how operators stood at moments of the past, from journals of a city.

ghost use Rattle.std.specs.Prelude.{◌≡◌, ◌<◌, ◌^◌, All, bytes_eq, IfErr, IfOk, length, map, option_and_then};
ghost use Rattle.std.specs.Prelude.{option_map, string_bytes, Ok, Err};
ghost use Rattle.mds_request.specs.Configuration.{configuration, operator};
ghost use Rattle.cli_calendar.specs.Moments.{moment_in, moments_between};
ghost use Rattle.cli_report_command.specs.Heads.{end_by, last_of, left_over, noun, time_of};
ghost use Rattle.cli_report_command.specs.Reports.{is_reported, reported_places};

use crate::report_city::{ReportCity, city_of};
use crate::report_files::{ReportFiles, check_folder, clear_parts};
use crate::report_journals::{journals_in, read_journals};
use crate::report_operators::{ReportSource, append_operators};
use cli_args::{COMMIT, ReportOptions, VERSION, version_line};
use cli_calendar::{moment_in, moments_between};
use cli_host::FileHost;
use cli_journal::{
    ConfigFile, ExitCause, ReportFault, configuration_in, operator_names_in, span_of,
};
use cli_report::{ReportHead, ReportSpan};
use mds_request::{Config, Operator};
use mds_text::{Id, Moment};
use server_admission::{MachineClock, Moments};
use std::alloc::{AllocError, AllocGlobal, Global};
use std::fs::{File, Files};
use std::io::{Eprint, Print};
use std::thread::Threads;
use std::time::Clock;

/// The milliseconds of a minute.
const MINUTE: u64 = 60_000;

/// The time that a report is about.
#[derive(Drop)]
struct ReportTime {
    /// The first moment.
    from: Moment,
    /// What all moments are before.
    to: Moment,
    /// What they were to be before, where that is still to come.
    to_come: Option<Moment>,
    /// The milliseconds between two moments.
    every: u64,
}

/// What all moments of a report are before that is asked for up to a moment, and is made at another one.
fn end_by(made: &Option<Moment>, to: Moment) -> Moment
    ensures { result ≡ end_by made.now to }
{
    match made {
        Some(made) => { if *made < to { *made } else { to } }
        None => to,
    }
}

/// The same, where there is a moment up to which it is asked for.
fn end_by_if(made: &Option<Moment>, to: &Option<Moment>) -> Option<Moment>
    ensures { result ≡ option_map (end_by made.now) to.now }
{
    match to {
        Some(to) => Some(end_by(made, *to)),
        None => None,
    }
}

/// The moment up to which a report is asked for, where it is still to come when the report is made.
fn left_over(made: &Option<Moment>, to: Moment) -> Option<Moment>
    ensures { result ≡ left_over made.now to }
{
    match made {
        Some(made) => { if *made < to { Some(to) } else { None } }
        None => None,
    }
}

/// The same, where there is a moment up to which it is asked for.
fn left_over_if(made: &Option<Moment>, to: &Option<Moment>) -> Option<Moment>
    ensures { result ≡ option_and_then (left_over made.now) to.now }
{
    match to {
        Some(to) => left_over(made, *to),
        None => None,
    }
}

/// The moments of `--from` and `--to`; `None` where a text is no moment.
///
/// # Errors
///
/// Memory ran out.
fn asked_moments(
    alloc: Global,
    config: &Config,
    asked: &ReportOptions<'_>,
) -> Result<(Option<Moment>, Option<Moment>), AllocError>
    ensures from { IfOk result (λ moments. moments.0 ≡ moment_in (configuration config.now).zone asked.now.from.now) }
    ensures to { IfOk result (λ moments. moments.1 ≡ moment_in (configuration config.now).zone asked.now.to.now) }
{
    let from = moment_in(alloc, config.zone(), asked.from)?;
    let to = moment_in(alloc, config.zone(), asked.to)?;
    Ok((from, to))
}

/// The time that a report is about which is made at this moment, and asked for from one to another: nothing of it is still
/// to come.
///
/// # Errors
///
/// `NoFirst`, `NoLast` or `NoTime`.
fn time_of(
    asked: &ReportOptions<'_>,
    made: &Option<Moment>,
    from: Option<Moment>,
    to: &Option<Moment>,
) -> Result<ReportTime, ReportFault>
    ensures span { IfOk result (λ time. time_of made.now from to.now ≡ Ok (time.from, time.to)) }
    ensures refused { IfErr result (λ fault. time_of made.now from to.now ≡ Err fault) }
    ensures to_come { IfOk result (λ time. time.to_come ≡ option_and_then (left_over made.now) to.now) }
    ensures apart { IfOk result (λ time. 0 < time.every) }
    ensures short { IfOk result (λ time. time.every < 2 ^ 62) }
{
    let (first, end) = span_of(from, end_by_if(made, to))?;
    Ok(ReportTime {
        from: first,
        to: end,
        to_come: left_over_if(made, to),
        every: asked.every * MINUTE,
    })
}

/// Says on standard error that a report ends when it is made, where the moment up to which it is asked for is still to
/// come.
fn tell_end<R: Eprint>(rt: &R, to_come: Option<Moment>, asked: &str) {
    if to_come.is_some() {
        let _ = eprintln!(rt;
            "ruffletuff: the moment of --to is still to come, so the report ends now: {asked}"
        );
    }
}

/// The last of some moments; another one where there is none.
fn last_of(moments: &[Moment], other: Moment) -> Moment
    ensures { result ≡ last_of moments.now other }
{
    match moments.last() {
        Some(last) => *last,
        None => other,
    }
}

/// The moments of a report.
///
/// # Errors
///
/// Out of memory.
fn moments_of(alloc: Global, time: &ReportTime) -> Result<Vec<Moment>, AllocError>
    requires apart { 0 < time.now.every }
    requires short { time.now.every < 2 ^ 62 }
    ensures { IfOk result (λ moments. moments.items ≡ moments_between time.now.from time.now.to time.now.every) }
{
    moments_between(alloc, time.from, time.to, time.every)
}

/// The span of a report with these moments.
fn span_over(time: &ReportTime, moments: &[Moment]) -> ReportSpan
    ensures first { result.first ≡ time.now.from }
    ensures last { result.last ≡ last_of moments.now time.now.from }
    ensures every { result.every ≡ time.now.every }
{
    ReportSpan {
        first: time.from,
        last: last_of(moments, time.from),
        every: time.every,
    }
}

/// Whether two identifiers are the same.
fn is_same(id: Id, other: Id) -> bool
    ensures { result ≡ bytes_eq id other }
{
    id == other
}

/// Whether an operator is reported: one of these identifiers, or any where there are none.
fn is_reported(ids: &[Id], known: &Operator) -> bool
    ensures { result ≡ is_reported ids.now (operator known.now) }
{
    ids.is_empty() || ids.iter().any(|id| is_same(known.id, *id))
}

/// Whether these identifiers are of operators of a configuration.
///
/// # Errors
///
/// `NoOperator` with the first that isn't.
fn check_ids(operators: &[Operator], ids: &[Id]) -> Result<(), ReportFault> {
    for id in ids {
        if !operators.iter().any(|operator| is_same(operator.id, *id)) {
            return Err(ReportFault::NoOperator(*id));
        }
    }
    Ok(())
}

/// The places of the operators that are reported, in the configuration's order.
///
/// # Errors
///
/// Memory ran out.
fn reported_places(
    alloc: Global,
    operators: &[Operator],
    ids: &[Id],
) -> Result<Vec<usize>, AllocError>
    ensures places { IfOk result (λ places. places.items ≡ reported_places ids.now (map operator operators.now)) }
    ensures within { IfOk result (λ places. All (λ place. place < length operators.now) places.items) }
{
    let mut places = Vec::new(alloc);
    for (place, known) in operators.iter().enumerate() {
        if is_reported(ids, known) {
            places.push(place)?;
        }
    }
    Ok(places)
}

/// Writes a report into its folder: all of its files, or none. What isn't finished is removed.
///
/// # Errors
///
/// As `append_operators`, and `Report` with `Present` where the folder came to have one of the files meanwhile.
fn write_report<R: Files<File = File> + Eprint + Threads + Sync + AllocGlobal>(
    rt: &R,
    folder: &str,
    source: &ReportSource<'_>,
) -> Result<usize, ExitCause>
    requires { All (λ place. place < length (configuration source.now.config.now).operators) source.now.places.now }
{
    let written = match ReportFiles::create(rt, folder) {
        Ok(mut files) => match append_operators(rt, &mut files, source) {
            Ok(samples) => files.finish(rt, folder).map(|()| samples),
            Err(cause) => Err(cause),
        },
        Err(cause) => Err(cause),
    };
    if written.is_err() {
        clear_parts(rt, folder);
    }
    written
}

/// The noun for so many.
fn noun<'x>(count: usize, one: &'x str, many: &'x str) -> &'x str
    ensures { result.now ≡ noun count one.now many.now }
{
    if count == 1 { one } else { many }
}

/// Prints how much a report tells: of how many operators, at how many moments, in how many rows of its first table.
///
/// # Errors
///
/// `NotPrinted`.
fn print_counts<R: Print>(
    rt: &R,
    operators: usize,
    moments: usize,
    rows: usize,
) -> Result<(), ExitCause> {
    let of = noun(operators, "operator", "operators");
    let at = noun(moments, "moment", "moments");
    let told = noun(rows, "row", "rows");
    match println!(rt; "{operators} {of}, {moments} {at}, {rows} {told} in verdicts.csv") {
        Ok(()) => Ok(()),
        Err(_) => Err(ExitCause::NotPrinted),
    }
}

/// The text of a configuration's file, with a rule in the place of the zone's name, and what a report says of its city.
///
/// # Errors
///
/// `Misconfigured` where the file can't be read or is too long, `NoMemory`.
fn read_city<R: FileHost>(rt: &R, path: &str) -> Result<(Vec<u8>, ReportCity), ExitCause> {
    let alloc = rt.alloc();
    let file = ConfigFile::read(rt, path)?;
    let text = file.resolve(alloc)?;
    let city = city_of(alloc, file.zone_name(), &text)?;
    Ok((text, city))
}

/// The moment at which a report is made; `None` where no clock says so.
fn made_at<R: Clock>(rt: &R) -> Option<Moment> {
    MachineClock(rt).now()
}

/// The texts at the head of a report's page.
#[derive(Drop)]
struct HeadTexts {
    /// What is said of the city.
    city: ReportCity,
    /// The program, with its version.
    program: String,
}

/// What the page says of a report that was made at this moment, and asked for up to one that was still to come, where it
/// was.
fn head_of(
    texts: &HeadTexts,
    made: Option<Moment>,
    to_come: Option<Moment>,
    span: ReportSpan,
) -> ReportHead<'_>
    ensures city { result.city.now ≡ string_bytes texts.now.city.title }
    ensures zone { result.zone.now ≡ texts.now.city.zone.items }
    ensures program { result.program.now ≡ string_bytes texts.now.program }
    ensures made { result.made ≡ made }
    ensures to_come { result.to_come ≡ to_come }
    ensures span { result.span ≡ span }
{
    ReportHead {
        city: texts.city.title.as_bytes(),
        zone: &texts.city.zone,
        made,
        to_come,
        program: texts.program.as_bytes(),
        span,
    }
}

/// Reports how operators stood at moments of the past: reads journals, without locking or changing them, and writes
/// what their entries tell as three files into a folder. It ends when it is made, if not before.
///
/// # Errors
///
/// `Misconfigured`; `Report`; `ReportFolder` with the first folder whose journal can't be read, or else is damaged or
/// of another configuration; `ReportEntry` with the first entry that can't be replayed; `NoMemory`. Then nothing is
/// written. `NotPrinted` where the report is.
pub fn report<R>(rt: &R, asked: &ReportOptions<'_>) -> Result<(), ExitCause>
where
    R: AllocGlobal + Files<File = File> + Print + Eprint + Threads + Clock + Sync + Copy,
{
    let alloc = rt.alloc();
    let (text, city) = read_city(rt, asked.config)?;
    let config = configuration_in(alloc, &text)?;
    let made = made_at(rt);
    let (from, to) = asked_moments(alloc, &config, asked)?;
    tell_end(rt, left_over_if(&made, &to), asked.to);
    let time = time_of(asked, &made, from, &to)?;
    let ids = asked.operators(alloc)?;
    check_ids(config.operators(), &ids)?;
    check_folder(rt, asked.out)?;
    let bytes = read_journals(rt, asked.folders)?;
    let journals = journals_in(alloc, &config, &bytes)?;
    let names = operator_names_in(alloc, &text)?;
    let places = reported_places(alloc, config.operators(), &ids)?;
    let moments = moments_of(alloc, &time)?;
    let program = version_line(alloc, VERSION, COMMIT)?;
    let span = span_over(&time, &moments);
    let texts = HeadTexts { city, program };
    let head = head_of(&texts, made, time.to_come, span);
    let source = ReportSource {
        config: &config,
        names: &names,
        places: &places,
        journals: &journals,
        moments: &moments,
        head,
    };
    let rows = write_report(rt, asked.out, &source)?;
    print_counts(rt, places.len(), moments.len(), rows)
}
