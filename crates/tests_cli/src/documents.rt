//! Tests of a file's documents as they are sent.
use cli_documents::{
    ImportDraft, Origin, PreparedDocument, RefusalReason, documents, order_drafts, prepare,
    target_of,
};
use mds_json::read_and_count;
use mds_text::Tree;
use std::alloc::Global;
use std::test::Fail;

/// Two policies, the first of which supersedes the second, and a geography.
const FILE: &[u8] =
    br#"{"data":{"policies":[{"policy_id":"5d8e1f70-62c4-4e9b-b0a6-2f1c9e3d2201","prev_policies":
["5D8E1F70-62C4-4E9B-B0A6-2F1C9E3D2202"]},{"policy_id":"5d8e1f70-62c4-4e9b-b0a6-2f1c9e3d2202"}],"geographies":
[{"geography_id":"3b0f6c9e-1d7a-4d2b-8f35-7a9d0a4c1101","name":"Downtown"}]}}"#;

/// Appends the drafts of a list.
fn gather(alloc: Global, drafts: &mut Vec<ImportDraft>, list: &[Tree]) -> Result<(), Fail> {
    let origin = Origin {
        file: 0,
        document: 0,
    };
    for value in list {
        if let PreparedDocument::Draft(draft) = prepare(alloc, origin, false, value)? {
            drafts.push(draft)?;
        }
    }
    Ok(())
}

#[test]
fn puts_successors_last(rt: HostRuntime) -> Result<(), Fail> {
    let alloc = rt.alloc();
    let (tree, _) = read_and_count(alloc, FILE)?;
    let lists = documents(&tree);
    let mut drafts = Vec::new(alloc);
    gather(alloc, &mut drafts, lists.second)?;
    gather(alloc, &mut drafts, lists.first)?;
    let drafts = order_drafts(alloc, drafts)?;
    let mut targets = String::new(alloc);
    for draft in &drafts {
        targets.push_str(target_of(alloc, draft)?.as_str())?;
        targets.push_str("\n")?;
    }
    assert!(rt;
        targets.as_str()
            == "/drafts/geographies/3b0f6c9e-1d7a-4d2b-8f35-7a9d0a4c1101
/drafts/policies/5d8e1f70-62c4-4e9b-b0a6-2f1c9e3d2202
/drafts/policies/5d8e1f70-62c4-4e9b-b0a6-2f1c9e3d2201
"
    );
    Ok(())
}

#[test]
fn refuses_a_fraction(rt: HostRuntime) -> Result<(), Fail> {
    let alloc = rt.alloc();
    let text =
        br#"{"policy_id":"5d8e1f70-62c4-4e9b-b0a6-2f1c9e3d2201","rules":[{"rule_type":"count","maximum":7.5}]}"#;
    let (tree, decimals) = read_and_count(alloc, text)?;
    let origin = Origin {
        file: 0,
        document: 0,
    };
    match prepare(alloc, origin, decimals > 0, &tree)? {
        PreparedDocument::Refused(refused) => {
            assert!(rt; refused.member == "maximum" && refused.why == RefusalReason::Decimal);
        }
        PreparedDocument::Draft(_) => assert!(rt; false),
    }
    Ok(())
}
