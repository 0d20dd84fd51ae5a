//! Tests of what arguments ask for, and of the usage and version lines.
use cli_args::{CliCommand, TokenSource, Transfer, parse_command, usage_of, version_line};
use mds_text::Id;
use std::alloc::{AllocError, AllocGlobal};
use std::test::Fail;

/// The words of a line, split at spaces.
fn words_in<R: AllocGlobal>(rt: &R, line: &str) -> Result<Vec<String>, AllocError> {
    let mut words = Vec::new(rt.alloc());
    for word in line.split(' ') {
        words.push(String::from_str(rt.alloc(), word)?)?;
    }
    Ok(words)
}

/// Where the access token of an import or an export comes from.
fn token_in<'a>(asked: &CliCommand<'a>) -> Option<TokenSource<'a>> {
    match asked {
        CliCommand::Errand(Transfer::Policies(import)) => match import.destination {
            Some(destination) => Some(destination.token),
            None => None,
        },
        CliCommand::Errand(Transfer::Published(export)) => Some(export.source.token),
        _ => None,
    }
}

#[test]
fn says_its_version(rt: HostRuntime) -> Result<(), Fail> {
    let line = version_line(rt.alloc(), "1.3.0", "")?;
    assert!(rt; line.as_str() == "ruffletuff 1.3.0");
    let line = version_line(rt.alloc(), "1.3.0", "cd2989f")?;
    assert!(rt; line.as_str() == "ruffletuff 1.3.0 (cd2989f)");
    Ok(())
}

#[test]
fn says_how_a_begun_command_is_called(rt: HostRuntime) -> Result<(), Fail> {
    let thinning = usage_of(&words_in(&rt, "thin city")?);
    assert!(rt; thinning == "thin DIR --config FILE [--archive DIR]");
    assert!(rt; usage_of(&words_in(&rt, "stop")?) == "stop ADDRESS");
    let serving = "serve --config FILE --state DIR --listen ADDRESS";
    assert!(rt; usage_of(&words_in(&rt, "serve")?) == serving);
    assert!(rt; usage_of(&words_in(&rt, "city thin")?) == serving);
    assert!(rt; usage_of(&[]) == serving);
    Ok(())
}

#[test]
fn takes_a_name_of_the_control_port(rt: HostRuntime) -> Result<(), Fail> {
    let line = "serve --config c --state s --listen l --control a --control-host ops.example";
    match parse_command(&words_in(&rt, line)?) {
        Some(CliCommand::Serve(service)) => {
            assert!(rt; service.control == Some("a"));
            assert!(rt; service.control_host == Some("ops.example"));
        }
        _ => assert!(rt; false),
    }
    let line = "serve --config c --state s --listen l --control-host ops.example";
    assert!(rt; parse_command(&words_in(&rt, line)?).is_none());
    Ok(())
}

#[test]
fn takes_an_archive(rt: HostRuntime) -> Result<(), Fail> {
    let line = "serve --config c --archive a --state s --listen l";
    match parse_command(&words_in(&rt, line)?) {
        Some(CliCommand::Serve(service)) => assert!(rt; service.archive == Some("a")),
        _ => assert!(rt; false),
    }
    match parse_command(&words_in(&rt, "thin s --archive a --config c")?) {
        Some(CliCommand::Thin(thinning)) => {
            assert!(rt; thinning.archive == Some("a"));
            assert!(rt; thinning.folder == "s" && thinning.config == "c");
        }
        _ => assert!(rt; false),
    }
    match parse_command(&words_in(&rt, "thin s --config c")?) {
        Some(CliCommand::Thin(thinning)) => assert!(rt; thinning.archive.is_none()),
        _ => assert!(rt; false),
    }
    for line in ["thin s --config c --archive", "thin s --archive a"] {
        assert!(rt; parse_command(&words_in(&rt, line)?).is_none());
    }
    Ok(())
}

#[test]
fn checks_a_configuration(rt: HostRuntime) -> Result<(), Fail> {
    let words = words_in(&rt, "check --config city.json")?;
    assert!(rt;
        matches!(
            parse_command(&words),
            Some(CliCommand::CheckConfig("city.json"))
        )
    );
    let words = words_in(&rt, "check city")?;
    assert!(rt; matches!(parse_command(&words), Some(CliCommand::Check("city"))));
    for line in ["check --config", "check city more", "check --config a b"] {
        assert!(rt; parse_command(&words_in(&rt, line)?).is_none());
    }
    Ok(())
}

#[test]
fn takes_a_token_from_one_place(rt: HostRuntime) -> Result<(), Fail> {
    let words = words_in(&rt, "import policies a.json --to here --token city")?;
    match &parse_command(&words) {
        Some(asked) => {
            assert!(rt; matches!(token_in(asked), Some(TokenSource::Argument("city"))));
        }
        None => assert!(rt; false),
    }
    let words = words_in(&rt, "export folder --token-file - --from here")?;
    match &parse_command(&words) {
        Some(asked) => assert!(rt; matches!(token_in(asked), Some(TokenSource::File("-")))),
        None => assert!(rt; false),
    }
    let line = "import policies a.json --to here --token city --token-file t";
    assert!(rt; parse_command(&words_in(&rt, line)?).is_none());
    Ok(())
}

#[test]
fn reports_on_operators(rt: HostRuntime) -> Result<(), Fail> {
    let line =
        "report city before --config c --from 2026-11-01 --operator 00000000-0000-4000-8000-0000000000a1 --to 0 \
                --operator 00000000-0000-4000-8000-0000000000b1 --out folder";
    match &parse_command(&words_in(&rt, line)?) {
        Some(CliCommand::Report(report)) => {
            assert!(rt; report.folders.len() == 2);
            assert!(rt; report.folders[1].as_str() == "before");
            assert!(rt; report.from == "2026-11-01");
            assert!(rt; report.to == "0");
            assert!(rt; report.every == 5);
            let operators = report.operators(rt.alloc())?;
            assert!(rt; operators.len() == 2);
            let second = Id::read("00000000-0000-4000-8000-0000000000b1");
            assert!(rt; operators[1] == second.expect(&rt, "an identifier"));
        }
        _ => assert!(rt; false),
    }
    Ok(())
}

#[test]
fn reports_by_good_options_alone(rt: HostRuntime) -> Result<(), Fail> {
    let good = "report city --config c --from 0 --to 1 --out o";
    assert!(rt;
        matches!(
            parse_command(&words_in(&rt, good)?),
            Some(CliCommand::Report(_))
        )
    );
    for line in [
        "report --config c --from 0 --to 1 --out o",
        "report city --config c --from 0 --to 1",
        "report city --config c --from 0 --to 1 --out o --out p",
        "report city --config c --from 0 --to 1 --out o --every 0",
        "report city --config c --from 0 --to 1 --out o --every 1441",
        "report city --config c --from 0 --to 1 --out o --operator alfa",
        "report city --config c --from 0 --to 1 --out o --operator",
    ] {
        assert!(rt; parse_command(&words_in(&rt, line)?).is_none());
    }
    Ok(())
}
