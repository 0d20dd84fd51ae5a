//! Tests of the commands on a city's journal in etcd: their arguments, their ends, and what is said of a register.
use cli_args::{CliCommand, LogCommand, parse_command};
use cli_log::{LogCommandEnd, LookPair, end_of_fault, is_city, prefix_of, status_text};
use journal_cluster::ClusterFault;
use journal_file::LogEnd;
use journal_gateway::GatewayFault;
use journal_register::{Extent, FIRST_HEAD, Head, Look, NO_HEAD, NOBODY, Owner};
use std::alloc::{AllocError, AllocGlobal};
use std::test::Fail;

/// The words of a line, split at spaces.
fn words_in<R: AllocGlobal>(rt: &R, line: &str) -> Result<Vec<String>, AllocError> {
    let mut words = Vec::new(rt.alloc());
    for word in line.split(' ') {
        words.push(String::from_str(rt.alloc(), word)?)?;
    }
    Ok(words)
}

#[test]
fn takes_a_city_in_etcd(rt: HostRuntime) -> Result<(), Fail> {
    let line = "status --city riverton --log etcd:h:1,i:1";
    match parse_command(&words_in(&rt, line)?) {
        Some(CliCommand::Log(LogCommand::Status(place))) => {
            assert!(rt; place.cluster == "etcd:h:1,i:1" && place.city == "riverton");
            assert!(rt; place.user.is_none());
        }
        _ => assert!(rt; false),
    }
    let line = "fetch to --log etcd:h:1 --city riverton --log-user u";
    match parse_command(&words_in(&rt, line)?) {
        Some(CliCommand::Log(LogCommand::Fetch(folder, place))) => {
            assert!(rt; folder == "to" && place.user == Some("u"));
        }
        _ => assert!(rt; false),
    }
    match parse_command(&words_in(&rt, "seed from --log etcd:h:1 --city riverton")?) {
        Some(CliCommand::Log(LogCommand::Seed(folder, _))) => assert!(rt; folder == "from"),
        _ => assert!(rt; false),
    }
    assert!(rt; parse_command(&words_in(&rt, "seed from --log etcd:h:1")?).is_none());
    assert!(rt; parse_command(&words_in(&rt, "status x --log etcd:h:1 --city c")?).is_none());
    Ok(())
}

#[test]
fn keeps_cities_apart(rt: HostRuntime) -> Result<(), Fail> {
    assert!(rt; is_city("river_ton-2") && !is_city("") && !is_city("a/b"));
    assert!(rt; prefix_of(rt.alloc(), "riverton")?.as_str() == "ruffletuff/riverton");
    Ok(())
}

#[test]
fn ends_by_what_was_answered(rt: HostRuntime) {
    let barred = end_of_fault(ClusterFault::Unanswered(GatewayFault::Refused(403)));
    assert!(rt; barred == LogCommandEnd::Barred(403) && barred.status() == 10);
    let silent = end_of_fault(ClusterFault::Unanswered(GatewayFault::Refused(503)));
    assert!(rt; silent.status() == 1);
    assert!(rt; silent.message() == "the cluster refuses what is asked");
    assert!(rt; LogCommandEnd::Claimed.status() == 9 && LogCommandEnd::Present.status() == 4);
}

#[test]
fn says_who_owns_a_journal(rt: HostRuntime) -> Result<(), Fail> {
    let unclaimed = Look {
        cluster: 7,
        revision: 9,
        owner: NOBODY,
        head: NO_HEAD,
    };
    let seen = LookPair {
        last: unclaimed,
        has_moved: false,
    };
    let text = status_text(rt.alloc(), &seen)?;
    assert!(rt;
        text.as_str()
            == "owner: none\ngeneration: 0.0\nposition: 0 bytes, 0 chunks, 0 texts\nbeat: 0, more than 1500 ms old\ncluster: 7, revision 9"
    );
    let end = LogEnd {
        position: 1370,
        sum: 5,
        count: 5,
    };
    let extent = Extent {
        chunks: 1,
        end,
        ..FIRST_HEAD.extent
    };
    let claimed = Look {
        owner: Owner { epoch: 2, nonce: 0 },
        head: Head {
            extent,
            ..FIRST_HEAD
        },
        ..unclaimed
    };
    let seen = LookPair {
        last: claimed,
        has_moved: true,
    };
    let text = status_text(rt.alloc(), &seen)?;
    assert!(rt;
        text.as_str()
            == "owner: none, handed over in epoch 2\ngeneration: 1.0\nposition: 1370 bytes, 1 chunks, 5 texts\nbeat: 0, less than 1500 ms old\ncluster: 7, revision 9"
    );
    Ok(())
}
