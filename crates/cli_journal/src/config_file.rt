//! A configuration's file: its text, findings in it, and the rule in the place of its zone's name.
ghost use Rattle.std.specs.Prelude.{◌≡◌, ◌≤◌, length, option_map, IfOk};
ghost use Rattle.std.specs.List.{list_any};
ghost use Rattle.cli_journal.specs.Configuring.{is_no_oversight, is_no_page, refused_by};
ghost use Rattle.mds_script.specs.declared.gather.TheConstants.{LINE_LIMIT};

use crate::configuration::{check_length, text_in};
use crate::exit_cause::ExitCause;
use cli_config::{ConfigFinding, FindingKind, ResolvedZone, review, with_zone, zone_name_in};
use cli_host::{FileHost, MessageHost};
use cli_timezone::{ZoneFileFault, ZoneName, rule_in, zone_message};
use mds_config_error::Detail;
use std::alloc::{AllocError, Global};
use std::fs::{File, Files};
use std::io::Read;

/// The most bytes of a zone's file that are read.
const MOST_OF_ZONE: u64 = 1_048_576;

/// The text of a configuration's file as it stands there, and the rule of its zone where that goes by a name.
#[derive(Drop)]
pub struct ConfigFile {
    text: Vec<u8>,
    /// The name of the zone, where it goes by a name.
    zone: Option<ZoneName>,
    zoned: ResolvedZone,
}

/// The bytes of a zone's file; `None` where it isn't there or can't be read.
fn zone_bytes<R: Files<File = File>>(rt: &R, alloc: Global, path: &str) -> Option<Vec<u8>> {
    let file = File::open(rt, path).ok()?;
    let mut bytes = Vec::new(alloc);
    let mut front = file.take(MOST_OF_ZONE);
    match front.read_to_end(&mut bytes) {
        Ok(_) => Some(bytes),
        Err(_) => None,
    }
}

/// The rule of the zone of this name, from the zone's file, or why there is none.
fn resolve_zone<R: Files<File = File>>(
    rt: &R,
    alloc: Global,
    name: &ZoneName,
) -> Result<ResolvedZone, AllocError> {
    let path = name.path(alloc)?;
    let Some(bytes) = zone_bytes(rt, alloc, path.as_str()) else {
        return Ok(ResolvedZone::Fault(ZoneFileFault::Unreadable));
    };
    Ok(match rule_in(alloc, &bytes) {
        Ok(rule) => ResolvedZone::Rule(rule),
        Err(fault) => ResolvedZone::Fault(fault),
    })
}

/// Whether a finding is reported where a server starts: what makes the text no configuration is reported as a fault
/// instead.
fn is_reported_at_start(what: FindingKind) -> bool {
    !matches!(what, FindingKind::Wrong(_))
}

/// Whether what is found is a value of the member `oversight` that is none of its texts.
fn is_no_oversight(what: FindingKind) -> bool
    ensures { result ≡ is_no_oversight what }
{
    matches!(what, FindingKind::NoOversight)
}

/// Whether one of these is a value of the member `oversight` that is none of its texts.
fn has_wrong_oversight(findings: &[ConfigFinding]) -> bool
    ensures { result ≡ list_any (λ f. is_no_oversight f.what) findings.now }
{
    findings.iter().any(|finding| is_no_oversight(finding.what))
}

/// Whether what is found is a part of the member `page` that is wrong.
fn is_no_page(what: FindingKind) -> bool
    ensures { result ≡ is_no_page what }
{
    matches!(what, FindingKind::NoPage(_))
}

/// Whether one of these is a part of the member `page` that is wrong.
fn has_wrong_page(findings: &[ConfigFinding]) -> bool
    ensures { result ≡ list_any (λ f. is_no_page f.what) findings.now }
{
    findings.iter().any(|finding| is_no_page(finding.what))
}

/// Whether a server starts with a text in which these are found.
///
/// # Errors
///
/// `NoOversight` where one is a value of the member `oversight` that is none of its texts, and else `NoPage` where one is a
/// part of the member `page` that is wrong.
fn check_findings(findings: &[ConfigFinding]) -> Result<(), ExitCause>
    ensures { result ≡ refused_by findings.now }
{
    if has_wrong_oversight(findings) {
        Err(ExitCause::NoOversight)
    } else if has_wrong_page(findings) {
        Err(ExitCause::NoPage)
    } else {
        Ok(())
    }
}

impl ConfigFile {
    /// Reads a configuration's file, and its zone's file where the zone goes by a name.
    ///
    /// # Errors
    ///
    /// `Misconfigured` where it can't be read or is longer than a line of a script may be, `NoMemory`.
    pub fn read<R: FileHost>(rt: &R, path: &str) -> Result<ConfigFile, ExitCause> {
        let alloc = rt.alloc();
        let text = match File::open(rt, path) {
            Ok(file) => text_in(alloc, file)?,
            Err(_) => return Err(ExitCause::Misconfigured(Detail::Unreadable)),
        };
        let zone = zone_name_in(alloc, &text)?;
        let zoned = match &zone {
            Some(name) => resolve_zone(rt, alloc, name)?,
            None => ResolvedZone::Plain,
        };
        Ok(ConfigFile { text, zone, zoned })
    }

    /// The name of the zone, where it goes by a name.
    pub fn zone_name(&self) -> Option<&str>
        ensures { option_map (λ name. name.now) result ≡ self.now.zone }
    {
        match &self.zone {
            Some(name) => Some(name.as_str()),
            None => None,
        }
    }

    /// The text to be read as a configuration: with the rule in the place of the zone's name.
    ///
    /// # Errors
    ///
    /// `Misconfigured` where it is longer than a line of a script may be, `NoMemory`.
    pub fn resolve(&self, alloc: Global) -> Result<Vec<u8>, ExitCause>
        ensures { IfOk result (λ text. length text.items ≤ LINE_LIMIT) }
    {
        let text = match &self.zoned {
            ResolvedZone::Rule(rule) => with_zone(alloc, &self.text, rule)?,
            ResolvedZone::Plain | ResolvedZone::Fault(_) => Vec::from_slice(alloc, &self.text)?,
        };
        check_length(text)
    }

    /// Findings in the text.
    ///
    /// # Errors
    ///
    /// Memory ran out.
    fn findings(&self, alloc: Global) -> Result<Vec<ConfigFinding>, AllocError> {
        review(alloc, &self.text, &self.zoned)
    }

    /// Reports on standard error by which rule the zone goes, if it goes by a name.
    fn report_zone<R: MessageHost>(&self, rt: &R) -> Result<(), AllocError> {
        if let (Some(name), ResolvedZone::Rule(rule)) = (&self.zone, &self.zoned) {
            let told = zone_message(rt.alloc(), name, rule)?;
            let _ = eprintln!(rt; "ruffletuff: {told}");
        }
        Ok(())
    }

    /// Reports on standard error the findings in the file at this path, a line each, and by which rule its zone goes.
    /// Where a server starts, and none of them ends that here, findings that make the text no configuration are left
    /// out: they are reported as a fault.
    ///
    /// # Errors
    ///
    /// `NoOversight` where the value of a member `oversight` is none of its texts, `NoPage` where a part of the member
    /// `page` is wrong, `NoMemory`.
    pub fn report_findings<R: MessageHost>(
        &self,
        rt: &R,
        path: &str,
        is_start: bool,
    ) -> Result<(), ExitCause> {
        let findings = self.findings(rt.alloc())?;
        let checked = check_findings(&findings);
        let leaves_out = is_start && checked.is_ok();
        for finding in &findings {
            if !leaves_out || is_reported_at_start(finding.what) {
                let line = finding.line(rt.alloc(), path)?;
                let _ = eprintln!(rt; "{line}");
            }
        }
        self.report_zone(rt)?;
        checked
    }
}
