//! Findings in a configuration's text, and their messages.
ghost use Rattle.std.specs.Prelude.{◌≡◌, IfOk, string_bytes};
ghost use Rattle.cli_config.specs.Wording.{counted_wording, place_wording};

use crate::members::KnownMember;
use crate::nearest::Hint;
use crate::position::TextPosition;
use cli_timezone::ZoneFileFault;
use mds_config_error::Wrong;
use server_settings::PageFault;
use std::alloc::{AllocError, Global};
use std::fmt;

/// The kind of a finding.
#[derive(Clone, Copy, Debug, PartialEq, Eq)]
pub enum FindingKind {
    /// An error: the text is no configuration.
    Wrong(Wrong),
    /// An error: there is no rule for the zone's name.
    Zone(ZoneFileFault),
    /// An error: a value is none of the texts of the member `oversight`.
    NoOversight,
    /// An error: the value of the member `page` has a part that is wrong.
    NoPage(PageFault),
    /// A warning: nobody reads the member.
    Unread(Hint),
    /// A warning: a later member of the same object has the same name, and is read in its place.
    Overridden,
    /// A warning: a value is neither true nor false, and counts as false.
    NoTruth,
    /// A warning: a name is no text of at most `MOST_NAME` bytes, and isn't read.
    NoName,
}

/// A finding in a configuration's text, and its position.
#[derive(Drop)]
pub struct ConfigFinding {
    /// The position of a member's name, or of its value where the error is in that; of an operator, where it begins.
    pub place: TextPosition,
    /// The member's path, as `operators[2].limit`, printable ASCII; empty where the error is of the whole text.
    pub member: String,
    pub what: FindingKind,
}

/// The end of a hint that says where a known name belongs.
#[derive(Clone, Copy)]
struct KnownHome(KnownMember);

impl fmt::Display for KnownHome {
    ghost use Rattle.std.specs.Prelude.{Some};
    ghost use Rattle.cli_config.specs.Wording.{home_wording};

    ghost output = { λ home. Some (home_wording home.0) };

    fn fmt<W: fmt::Write>(&self, f: &mut fmt::Formatter<W>) -> fmt::Result {
        f.write_str(match self.0 {
            KnownMember::Author
            | KnownMember::Oversight
            | KnownMember::Page
            | KnownMember::Public
            | KnownMember::Zone => ", beside \"operators\"",
            KnownMember::Operators => ", outside of the operators",
            KnownMember::Id | KnownMember::Limit | KnownMember::Name | KnownMember::Token =>
                ", of an operator",
        })
    }
}

impl fmt::Display for Hint {
    ghost use Rattle.std.specs.Prelude.{Some};
    ghost use Rattle.cli_config.specs.Wording.{hint_wording};

    ghost output = { λ hint. Some (hint_wording hint) };

    fn fmt<W: fmt::Write>(&self, f: &mut fmt::Formatter<W>) -> fmt::Result {
        match self {
            Hint::Nothing => Ok(()),
            Hint::Here(known) => {
                let name = known.name();
                write!(f, "; did you mean \"{name}\"?")
            }
            Hint::Elsewhere(known) => {
                let name = known.name();
                let home = KnownHome(*known);
                write!(f, "; did you mean \"{name}\"{home}?")
            }
        }
    }
}

/// The message about a member that nobody reads, after its path.
#[derive(Clone, Copy)]
struct UnreadMessage(Hint);

impl fmt::Display for UnreadMessage {
    ghost use Rattle.std.specs.Prelude.{Some};
    ghost use Rattle.cli_config.specs.Wording.{unread_wording};

    ghost output = { λ unread. Some (unread_wording unread.0) };

    fn fmt<W: fmt::Write>(&self, f: &mut fmt::Formatter<W>) -> fmt::Result {
        let hint = self.0;
        write!(f, ": nobody reads this member{hint}")
    }
}

impl fmt::Display for ConfigFinding {
    ghost use Rattle.std.specs.Prelude.{Some};
    ghost use Rattle.cli_config.specs.Wording.{finding_wording};

    ghost output = { λ finding. Some (finding_wording finding) };

    fn fmt<W: fmt::Write>(&self, f: &mut fmt::Formatter<W>) -> fmt::Result {
        let member = &self.member;
        match self.what {
            FindingKind::Wrong(wrong) => write!(f, "{wrong}"),
            FindingKind::Zone(fault) => write!(f, "zone: its file in /usr/share/zoneinfo {fault}"),
            FindingKind::NoOversight => write!(
                f,
                "{member}: neither \"none\", \"verdicts\" nor \"vehicles\""
            ),
            FindingKind::NoPage(fault) => {
                let words = fault.words();
                write!(f, "{member}{words}")
            }
            FindingKind::Unread(hint) => {
                let unread = UnreadMessage(hint);
                write!(f, "{member}{unread}")
            }
            FindingKind::Overridden => write!(
                f,
                "{member}: stands again below, so this one isn't read"
            ),
            FindingKind::NoTruth => write!(
                f,
                "{member}: neither true nor false, so it counts as false"
            ),
            FindingKind::NoName => write!(
                f,
                "{member}: no text of at most 256 bytes, so it isn't read"
            ),
        }
    }
}

/// A line or column number, after a colon.
fn number_text(alloc: Global, number: u64) -> Result<String, AllocError>
    ensures { IfOk result (λ text. string_bytes text ≡ counted_wording number) }
{
    format!(in alloc; ":{number}")
}

/// A position, as it comes after a file's name.
fn position_text(alloc: Global, place: TextPosition) -> Result<String, AllocError>
    ensures { IfOk result (λ text. string_bytes text ≡ place_wording place) }
{
    let column = number_text(alloc, place.column)?;
    let mut text = number_text(alloc, place.line)?;
    text.push_str(column.as_str())?;
    text.push_str(": ")?;
    Ok(text)
}

impl ConfigFinding {
    ghost use Rattle.cli_config.specs.Wording.{is_error, line_wording};

    /// Whether no server starts with the text because of it. All else is a warning.
    pub fn is_error(&self) -> bool
        ensures { result ≡ is_error self.now.what }
    {
        match self.what {
            FindingKind::Wrong(_) | FindingKind::Zone(_) => true,
            FindingKind::NoOversight | FindingKind::NoPage(_) => true,
            FindingKind::Unread(_) | FindingKind::Overridden => false,
            FindingKind::NoTruth | FindingKind::NoName => false,
        }
    }

    /// The finding as a line, without a line feed: `city.json:3:5: pubilc: nobody reads this member; did you mean
    /// "public"?`.
    ///
    /// # Errors
    ///
    /// Out of memory.
    pub fn line(&self, alloc: Global, file: &str) -> Result<String, AllocError>
        ensures { IfOk result (λ line. string_bytes line ≡ line_wording file.now self.now) }
    {
        let place = position_text(alloc, self.place)?;
        let message = format!(in alloc; "{self}")?;
        let mut line = String::from_str(alloc, file)?;
        line.push_str(place.as_str())?;
        line.push_str(message.as_str())?;
        Ok(line)
    }
}
