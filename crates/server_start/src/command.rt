//! The arguments of the program.
ghost use Rattle.std.specs.Prelude.{◌≡◌, map, string_bytes, option_map};
ghost use Rattle.server_start.specs.Input.{asked_by, asked_alone, serve_at, asked_view, is_flag};

use crate::count::count_of;

/// The server's version.
pub const VERSION: &str = "1.3.0";

/// How the program is called, in one line.
pub const USAGE: &str =
    "usage: mds_serve ADDRESS [CONNECTIONS] < CONFIGURATION (mds_serve --help says more)";

/// The text of `--help`.
pub const HELP: &str = "\
mds_serve ADDRESS [CONNECTIONS]   serves one city over HTTP
mds_serve --help                  says this
mds_serve --version               says the version

ADDRESS      where to listen, as 127.0.0.1:8080
CONNECTIONS  how many connections to serve, 1 to 9 digits; without it no end

The configuration is the first line of standard input, a JSON object:
  author     the author's access token
  operators  at most 64 objects with id (a UUID), limit (1 to 200000 vehicles) and token
  zone       Z, +hh:mm, -hh:mm or a POSIX rule
An access token is 1 to 64 letters, digits, '-' and '_'. No two are equal.

Standard output says 'ready' once the server listens. After a fault standard
error says which, and what is wrong with the arguments or the configuration.

Exit status: 0 the connections were served
             1 nothing can be listened to at ADDRESS
             2 the arguments or the configuration are wrong
             3 there was no memory to begin with

Example: mds_serve 127.0.0.1:8080 < city.json
";

/// What the arguments ask for.
#[derive(Clone, Copy)]
pub enum ServeCommand<'a> {
    /// How the program is called.
    Help,
    /// The version.
    Version,
    /// To serve.
    Serve {
        /// Where to listen.
        address: &'a str,
        /// How many connections to serve; none, without end.
        connections: Option<usize>,
    },
}

/// What the words after the program's name ask for: `--help`, `--version`, or `ADDRESS
/// [CONNECTIONS]`, where no address begins with `-`. `None` for any others.
pub fn command_of(words: &[String]) -> Option<ServeCommand<'_>>
    ensures { option_map asked_view result ≡ asked_by (map string_bytes words.now) }
{
    match words {
        [word] => command_of_word(word.as_str()),
        [address, count] => match count_of(count.as_str()) {
            Some(count) => serve_at(address.as_str(), Some(count)),
            None => None,
        },
        _ => None,
    }
}

/// What one word asks for.
fn command_of_word(word: &str) -> Option<ServeCommand<'_>>
    ensures { option_map asked_view result ≡ asked_alone word.now }
{
    if word == "--help" {
        Some(ServeCommand::Help)
    } else if word == "--version" {
        Some(ServeCommand::Version)
    } else {
        serve_at(word, None)
    }
}

/// To serve at an address, which begins with no `-`.
fn serve_at(address: &str, connections: Option<usize>) -> Option<ServeCommand<'_>>
    ensures { option_map asked_view result ≡ serve_at address.now connections }
{
    if is_flag(address.as_bytes()) {
        None
    } else {
        Some(ServeCommand::Serve {
            address,
            connections,
        })
    }
}

/// Whether the first byte is `-`.
fn is_flag(word: &[u8]) -> bool
    ensures { result ≡ is_flag word.now }
{
    match word.first() {
        Some(byte) => *byte == b'-',
        None => false,
    }
}
