//! The line that `--version` prints.
ghost use Rattle.std.specs.Prelude.{◌≡◌, ◌++◌, IfOk, OnOk, string_bytes};
ghost use Rattle.cli_args.specs.Versions.{commit_part, version_line};

use std::alloc::{AllocError, Global};

/// Appends the commit in brackets; nothing where it isn't known.
fn push_commit(line: &mut String, commit: &str) -> Result<(), AllocError>
    ensures { OnOk result (string_bytes line.new ≡ string_bytes line.old ++ commit_part commit.now) }
{
    if commit.is_empty() {
        return Ok(());
    }
    line.push_str(" (")?;
    line.push_str(commit)?;
    line.push_str(")")
}

/// The line that `--version` prints, without its line end: the program's name, its version and, where it is known, the
/// commit of its sources.
///
/// # Errors
///
/// Memory ran out.
pub fn version_line(alloc: Global, version: &str, commit: &str) -> Result<String, AllocError>
    ensures { IfOk result (λ line. string_bytes line ≡ version_line version.now commit.now) }
{
    let mut line = String::from_str(alloc, "ruffletuff ")?;
    line.push_str(version)?;
    push_commit(&mut line, commit)?;
    Ok(line)
}
