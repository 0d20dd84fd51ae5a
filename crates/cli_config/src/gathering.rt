//! Gathers the findings in a configuration's text.
ghost use Rattle.std.specs.Prelude.{◌≡◌, ◌++◌, ◌∷◌, [], None, IfOk, OnOk, map, option_map};
ghost use Rattle.cli_config.specs.Findings.{begin_of, begins_at, error_here, findings, first_at, finding_at, found_from, found_here, is_json, located, member_findings_here, member_found, page_located, spots_if, told, wrong_located, zone_located};
ghost use Rattle.cli_config.specs.LocatedMembers.{seen};

use crate::finding::{ConfigFinding, FindingKind};
use crate::grammar::fault_at;
use crate::lexemes::{LexemeAt, lexemes_of};
use crate::located_members::{LocatedMember, Value};
use crate::member_finding::{is_overridden, member_finding};
use crate::members::KnownMember;
use crate::paths::{Path, last_value, member_text, path_text, wrong_path};
use crate::position::position_of;
use crate::walk::members_of_text;
use crate::zoning::{ResolvedZone, text_to_check};
use mds_config_error::{Wrong, diagnose};
use server_settings::{PageFault, page_fault};
use std::alloc::{AllocError, Global};

/// An error, and the value that it is in, or none.
#[derive(Clone, Copy, Debug, PartialEq, Eq)]
pub(crate) struct LocatedError {
    pub(crate) value: Option<Value>,
    pub(crate) path: Path,
    pub(crate) what: FindingKind,
}

fn locate(spots: &[LocatedMember], path: Path, what: FindingKind) -> LocatedError
    ensures { result ≡ located (map seen spots.now) path what }
{
    LocatedError {
        value: last_value(path, spots),
        path,
        what,
    }
}

/// The error in a configuration, and where it is.
fn locate_wrong(spots: &[LocatedMember], wrong: Option<Wrong>) -> Option<LocatedError>
    ensures { result ≡ wrong_located (map seen spots.now) wrong }
{
    match wrong {
        Some(wrong) => Some(locate(spots, wrong_path(wrong), FindingKind::Wrong(wrong))),
        None => None,
    }
}

/// Why there is no rule for its zone's name, and where that is.
fn locate_zone_fault(spots: &[LocatedMember], zoned: &ResolvedZone) -> Option<LocatedError>
    ensures { result ≡ zone_located (map seen spots.now) zoned.now }
{
    match zoned {
        ResolvedZone::Fault(fault) => Some(locate(
            spots,
            Path::Member(KnownMember::Zone),
            FindingKind::Zone(*fault),
        )),
        ResolvedZone::Plain | ResolvedZone::Rule(_) => None,
    }
}

/// What is wrong with its page, and where that is.
fn locate_page_fault(spots: &[LocatedMember], fault: Option<PageFault>) -> Option<LocatedError>
    ensures { result ≡ page_located (map seen spots.now) fault }
{
    match fault {
        Some(fault) => Some(locate(
            spots,
            Path::Member(KnownMember::Page),
            FindingKind::NoPage(fault),
        )),
        None => None,
    }
}

/// Whether a value begins at this offset; also true where there is neither.
fn begins_at(here: Option<usize>, value: Option<Value>) -> bool
    ensures { result ≡ begins_at here value }
{
    match (here, value) {
        (None, None) => true,
        (Some(from), Some(value)) => from == value.from,
        _ => false,
    }
}

/// Adds the error, if it is in the value that begins here.
fn add_error(
    findings: &mut Vec<ConfigFinding>,
    alloc: Global,
    text: &[u8],
    here: Option<usize>,
    offset: usize,
    error: Option<LocatedError>,
) -> Result<(), AllocError>
    ensures { OnOk result (map told findings.new.items ≡ map told findings.old.items ++ error_here text.now here offset error) }
{
    let Some(error) = error else {
        return Ok(());
    };
    if begins_at(here, error.value) {
        findings.push(ConfigFinding {
            place: position_of(text, offset),
            member: path_text(alloc, error.path)?,
            what: error.what,
        })?;
    }
    Ok(())
}

/// The offset of what is found in a member: of its value where that is an error, and else of its name.
fn finding_at(spot: &LocatedMember, what: FindingKind) -> usize
    ensures { result ≡ finding_at (seen spot.now) what }
{
    match what {
        FindingKind::NoOversight => spot.value.from,
        _ => spot.at,
    }
}

/// Adds this finding in a member.
fn add_member_finding(
    findings: &mut Vec<ConfigFinding>,
    alloc: Global,
    text: &[u8],
    spot: &LocatedMember,
    what: FindingKind,
) -> Result<(), AllocError>
    ensures { OnOk result (map told findings.new.items ≡ map told findings.old.items ++ (member_found text.now (seen spot.now) what ∷ [])) }
{
    findings.push(ConfigFinding {
        place: position_of(text, finding_at(spot, what)),
        member: member_text(alloc, spot)?,
        what,
    })?;
    Ok(())
}

/// Adds what is found in a member, by those that come after it.
fn add_member_findings(
    findings: &mut Vec<ConfigFinding>,
    alloc: Global,
    text: &[u8],
    spot: &LocatedMember,
    later: &[LocatedMember],
) -> Result<(), AllocError>
    ensures { OnOk result (map told findings.new.items ≡ map told findings.old.items ++ member_findings_here text.now (seen spot.now) (map seen later.now)) }
{
    let overridden = is_overridden(spot, later);
    if overridden {
        add_member_finding(findings, alloc, text, spot, FindingKind::Overridden)?;
    }
    if let Some(what) = member_finding(alloc, text, spot, overridden)? {
        add_member_finding(findings, alloc, text, spot, what)?;
    }
    Ok(())
}

/// The errors of a text.
#[derive(Clone, Copy)]
struct Errors {
    wrong: Option<LocatedError>,
    zone: Option<LocatedError>,
    page: Option<LocatedError>,
}

/// Adds the errors and what is found in it for this member or operator, by those that come after it.
fn add_findings(
    findings: &mut Vec<ConfigFinding>,
    alloc: Global,
    text: &[u8],
    errors: Errors,
    spot: &LocatedMember,
    later: &[LocatedMember],
) -> Result<(), AllocError>
    ensures { OnOk result (map told findings.new.items ≡ map told findings.old.items ++ found_here text.now errors.wrong errors.zone errors.page (seen spot.now) (map seen later.now)) }
{
    let from = spot.value.from;
    add_error(findings, alloc, text, Some(from), from, errors.wrong)?;
    add_error(findings, alloc, text, Some(from), from, errors.zone)?;
    add_error(findings, alloc, text, Some(from), from, errors.page)?;
    add_member_findings(findings, alloc, text, spot, later)
}

/// Adds the findings for each of these.
fn add_each(
    findings: &mut Vec<ConfigFinding>,
    alloc: Global,
    text: &[u8],
    errors: Errors,
    spots: &[LocatedMember],
) -> Result<(), AllocError>
    ensures { OnOk result (map told findings.new.items ≡ map told findings.old.items ++ found_from text.now errors.wrong errors.zone errors.page (map seen spots.now)) }
{
    let mut rest = spots;
    while let Some((spot, later)) = rest.split_first() {
        add_findings(findings, alloc, text, errors, spot, later)?;
        rest = later;
    }
    Ok(())
}

fn is_json(wrong: Option<Wrong>) -> bool
    ensures { result ≡ is_json wrong }
{
    !matches!(wrong, Some(Wrong::Json))
}

/// The members and operators of a text; none where it is no JSON.
fn members_if(
    alloc: Global,
    is_json: bool,
    text: &[u8],
    marks: &[LexemeAt],
) -> Result<Vec<LocatedMember>, AllocError>
    ensures { IfOk result (λ spots. map seen spots.items ≡ spots_if is_json text.now marks.now) }
{
    if is_json {
        members_of_text(alloc, text, marks)
    } else {
        Ok(Vec::new(alloc))
    }
}

/// The offset of an error that is in no value.
fn begin_of(
    alloc: Global,
    is_json: bool,
    text: &[u8],
    marks: &[LexemeAt],
) -> Result<usize, AllocError>
    ensures { IfOk result (λ at. at ≡ begin_of is_json text.now marks.now) }
{
    if !is_json {
        return fault_at(alloc, text, marks);
    }
    match marks {
        [first, ..] => Ok(first.at),
        [] => Ok(0),
    }
}

/// The findings in a configuration's text, in the order of the text. They are the first error, as
/// `mds_config_error::diagnose` names it, at the member or at the object that lacks it, with the fault of the zone's
/// name and what is wrong with the page; an error for each member `oversight` whose value is none of its texts; and a warning for each member that
/// nobody reads, of which a later one is read, or whose value isn't read as it is written. In a text that is no JSON,
/// errors are at the position where it stops being JSON, and nothing is found in members.
///
/// `zoned` says what the zone's text is: what `zone_name_in` finds, with what `cli_timezone::rule_in` makes of its file.
///
/// # Errors
///
/// Out of memory.
pub fn review(
    alloc: Global,
    text: &[u8],
    zoned: &ResolvedZone,
) -> Result<Vec<ConfigFinding>, AllocError>
    ensures { IfOk result (λ found. map told found.items ≡ findings text.now zoned.now) }
{
    let read = text_to_check(alloc, text, zoned)?;
    let wrong = diagnose(alloc, &read)?;
    let is_json = is_json(wrong);
    let marks = lexemes_of(alloc, text)?;
    let spots = members_if(alloc, is_json, text, &marks)?;
    let begin = begin_of(alloc, is_json, text, &marks)?;
    let errors = Errors {
        wrong: locate_wrong(&spots, wrong),
        zone: locate_zone_fault(&spots, zoned),
        page: locate_page_fault(&spots, page_fault(alloc, text)?),
    };
    let mut findings = Vec::new(alloc);
    add_error(&mut findings, alloc, text, None, begin, errors.wrong)?;
    add_error(&mut findings, alloc, text, None, begin, errors.zone)?;
    add_error(&mut findings, alloc, text, None, begin, errors.page)?;
    add_each(&mut findings, alloc, text, errors, &spots)?;
    Ok(findings)
}
