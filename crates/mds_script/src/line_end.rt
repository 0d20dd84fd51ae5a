//! The end of a line.
ghost use Rattle.std.specs.Prelude.{◌≡◌};
ghost use Rattle.mds_script.specs.Input.{without_end};

/// The bytes of a line without its end: a line feed, and one carriage return before it.
pub fn without_end(line: &[u8]) -> &[u8]
    ensures { result.now ≡ without_end line.now }
{
    match line {
        [front @ .., b'\r', b'\n'] => front,
        [front @ .., b'\n'] => front,
        _ => line,
    }
}
