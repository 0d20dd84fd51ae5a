//! How each command is called, for the usage line behind wrong arguments.
ghost use Rattle.std.specs.Prelude.{◌≡◌, map, string_bytes};
ghost use Rattle.cli_args.specs.Usage.{usage_by, usage_of};

/// How `serve` is called.
const SERVE: &str = "serve --config FILE --state DIR --listen ADDRESS";

/// How the command is called that a word names; how `serve` is, where it names none.
fn usage_by(verb: &str) -> &'static str
    ensures { result.now ≡ usage_by verb.now }
{
    if verb == "check" {
        "check DIR, or check --config FILE"
    } else if verb == "audit" {
        "audit DIR --config FILE [--until MOMENT] [--operator ID]"
    } else if verb == "thin" {
        "thin DIR --config FILE [--archive DIR]"
    } else if verb == "report" {
        "report FOLDER.. --config FILE --from TIME --to TIME [--every MINUTES] [--operator ID].. --out DIR"
    } else if verb == "stop" {
        "stop ADDRESS"
    } else if verb == "import" {
        "import policies|status FILE.. --to ADDRESS --token-file PATH [--dry-run]"
    } else if verb == "export" {
        "export DIR --from ADDRESS --token-file PATH"
    } else if verb == "status" {
        "status --log CLUSTER --city NAME [--log-user PATH]"
    } else if verb == "fetch" {
        "fetch DIR --log CLUSTER --city NAME [--log-user PATH]"
    } else if verb == "seed" {
        "seed DIR --log CLUSTER --city NAME [--log-user PATH]"
    } else {
        SERVE
    }
}

/// How the command is called that the arguments behind the program's name begin; how `serve` is, where their first word
/// names none.
pub fn usage_of(words: &[String]) -> &'static str
    ensures { result.now ≡ usage_of (map string_bytes words.now) }
{
    match words {
        [] => SERVE,
        [verb, ..] => usage_by(verb.as_str()),
    }
}
