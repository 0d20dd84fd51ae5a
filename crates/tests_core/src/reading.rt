//! Trees by both readers, and documents whose texts are borrowed, with one allocation refused.
use mds_json::{
    Node, NodeBuffer, document_of, entries_of, read_and_count, read_tree, required_member,
    required_text,
};
use mds_text::{Field, TextFault, Tree, print_tree};
use std::alloc::Global;
use std::process::Abort;

/// The first example of RFC 8259, section 13.
const IMAGE: &str =
    "{ \"Image\": { \"Width\":  800, \"Height\": 600, \"Title\":  \"View from 15th Floor\",
    \"Thumbnail\": { \"Url\":    \"http://www.example.com/image/481989943\", \"Height\": 125,
    \"Width\":  100 }, \"Animated\" : false, \"IDs\": [116, 943, 234, 38793] } }";

/// The same as it is printed: compact, with names in byte order.
const COMPACT: &str = "{\"Image\":{\"Animated\":false,\"Height\":600,\"IDs\":[116,943,234,38793],\
    \"Thumbnail\":{\"Height\":125,\"Url\":\"http://www.example.com/image/481989943\",\"Width\":100},\
    \"Title\":\"View from 15th Floor\",\"Width\":800}}";

/// A text, its tree as it is printed, and how many of its numbers aren't plain.
type Case = (&'static str, &'static str, u64);

const TEXTS: &[Case] = &[
    (IMAGE, COMPACT, 0),
    (" [ ] ", "[]", 0),
    ("{}", "{}", 0),
    (
        r#"[null,true,false,"x",[[]],{"a":{}}]"#,
        r#"[null,true,false,"x",[[]],{"a":{}}]"#,
        0,
    ),
    (
        "\"\\u000b\\/\\t\\\\\\\"\\u20ac\"",
        "\"\\u000b/\\t\\\\\\\"\u{20ac}\"",
        0,
    ),
    (
        r#"[[-122.4,37.7],[0.5,"x"]]"#,
        r#"[["-122.4","37.7"],["0.5","x"]]"#,
        3,
    ),
    ("[[1.5,2.5],[3.5],7]", r#"[["1.5","2.5"],["3.5"],7]"#, 3),
    (
        "[[1.5,2.5,3.5],[4.5,5.5]]",
        r#"[["1.5","2.5","3.5"],["4.5","5.5"]]"#,
        5,
    ),
    ("\"1.5\"", "\"1.5\"", 0),
    ("-12", "-12", 0),
    (" 1.50 ", "\"1.50\"", 1),
    (
        "[-0,0,1e5,1E5,0.0,-7]",
        r#"["-0",0,"1e5","1E5","0.0",-7]"#,
        4,
    ),
    (
        "[123456789012345678,-999999999999999999,1234567890123456789]",
        r#"[123456789012345678,-999999999999999999,"1234567890123456789"]"#,
        1,
    ),
    (
        r#"{"a":-0,"b":[1.50,12]}"#,
        r#"{"a":"-0","b":["1.50",12]}"#,
        2,
    ),
    (
        r#"{"ab":1,"a":2,"":3,"B":4,"é":5,"b":6}"#,
        r#"{"":3,"B":4,"a":2,"ab":1,"b":6,"é":5}"#,
        0,
    ),
    (r#"{"b":1.5,"a":2,"b":[3]}"#, r#"{"a":2,"b":[3]}"#, 1),
    (r#"{"\u0061":1,"a":2}"#, r#"{"a":2}"#, 0),
    (r#"[{"a":1},{"a":2}]"#, r#"[{"a":1},{"a":2}]"#, 0),
    ("{1.5:2}", r#"{"1.5":2}"#, 1),
];

/// Checks that a tree is printed as this text.
fn expect_printed(rt: &impl Abort, alloc: Global, tree: &Tree, text: &str) {
    let printed = print_tree(alloc, tree).expect(rt, "memory");
    assert!(rt; printed.as_slice() == text.as_bytes(), "{text}");
}

/// Names come in byte order, the last of equal names counts, and a number that isn't plain becomes its text.
#[test]
fn texts_are_read(rt: HostRuntime) {
    let alloc = rt.alloc();
    for (text, printed, count) in TEXTS {
        let (tree, quoted) = read_and_count(alloc, text.as_bytes()).expect(&rt, "a tree");
        assert!(rt; quoted == *count, "{text}");
        expect_printed(&rt, alloc, &tree, printed);
        let (tree, quoted) = mds_text::read_and_count(alloc, text.as_bytes()).expect(&rt, "a tree");
        assert!(rt; quoted == *count, "{text}");
        expect_printed(&rt, alloc, &tree, printed);
    }
}

const MIXED: &[u8] = br#"{"b":[1.5,-2,"\n"],"a":{},"c":true}"#;

const MIXED_PRINTED: &[u8] = br#"{"a":{},"b":["1.5",-2,"\n"],"c":true}"#;

/// The tree of `MIXED`, read a second time where memory ran out, which is the only fault that may come.
fn tree_at_last(rt: &impl Abort, alloc: Global) -> Tree {
    match read_tree(alloc, MIXED) {
        Ok(tree) => tree,
        Err(fault) => {
            assert!(rt; matches!(fault, TextFault::NoMemory));
            read_tree(alloc, MIXED).expect(rt, "a tree")
        }
    }
}

/// With one allocation refused, whichever it is, a text is read or memory runs out; a second call reads it.
#[test]
fn reads_or_runs_out_of_memory(rt: HostRuntime) {
    let alloc = rt.alloc();
    let tree = tree_at_last(&rt, alloc);
    let printed = match print_tree(alloc, &tree) {
        Ok(printed) => printed,
        Err(_) => print_tree(alloc, &tree).expect(&rt, "memory"),
    };
    assert!(rt; printed.as_slice() == MIXED_PRINTED);
}

/// Whether the node is this text.
fn is_text(node: &Node<'_>, want: &str) -> bool {
    match node {
        Node::Text(text) => *text == want,
        _ => false,
    }
}

/// Whether the entries are these two texts.
fn are_texts(entries: &[Node<'_>], first: &str, second: &str) -> bool {
    match entries {
        [one, two] => is_text(one, first) && is_text(two, second),
        _ => false,
    }
}

/// Whether an entry is this pair.
fn is_pair(entry: &Node<'_>, first: &str, second: &str) -> bool {
    match entry {
        Node::Pair(one, two) => *one == first && *two == second,
        _ => false,
    }
}

/// Whether the entries are the two pairs of the ring in `expect_pairs`.
fn are_pairs(entries: &[Node<'_>]) -> bool {
    match entries {
        [one, two] => is_pair(one, "-122.4", "37.7") && is_pair(two, "0.5", "x"),
        _ => false,
    }
}

/// Checks a list of pairs that is borrowed from a source.
fn expect_pairs(rt: &impl Abort, alloc: Global, source: &mut NodeBuffer) -> Result<(), TextFault> {
    let ring = source.read(alloc, br#"[[-122.4,37.7],[0.5,"x"]]"#)?;
    assert!(rt; matches!(ring, Node::Pairs(_)));
    let entries = entries_of(alloc, &ring, Field::Coordinates)?;
    assert!(rt; are_pairs(entries.as_slice()));
    Ok(())
}

#[test]
fn pairs_are_borrowed(rt: HostRuntime) {
    let mut source = NodeBuffer::new(rt.alloc());
    expect_pairs(&rt, rt.alloc(), &mut source).expect(&rt, "pairs");
}

/// Checks the texts of the document's position.
fn expect_position(rt: &impl Abort, alloc: Global, document: &Node<'_>) -> Result<(), TextFault> {
    let position = required_member(document, Field::Coordinates)?;
    let numbers = entries_of(alloc, position, Field::Coordinates)?;
    assert!(rt; are_texts(numbers.as_slice(), "1.5", "-0"));
    Ok(())
}

/// Checks the document's name and its position.
fn expect_place(rt: &impl Abort, alloc: Global, tree: &Node<'_>) -> Result<(), TextFault> {
    let document = document_of(tree)?;
    let name = required_text(document, Field::Name)?;
    assert!(rt; name == "cap");
    expect_position(rt, alloc, document)
}

/// Checks the name and the texts of the position that a source reads.
fn expect_read_by(
    rt: &impl Abort,
    alloc: Global,
    source: &mut NodeBuffer,
    text: &str,
) -> Result<(), TextFault> {
    let tree = source.read(alloc, text.as_bytes())?;
    expect_place(rt, alloc, &tree)
}

/// Checks the same with a new source.
fn expect_source(rt: &impl Abort, alloc: Global, text: &str) -> Result<(), TextFault> {
    let mut source = NodeBuffer::new(alloc);
    expect_read_by(rt, alloc, &mut source, text)
}

/// Documents with a name and a position: one with an escape in its name, one with another member `name` before.
const DOCUMENTS: &[&str] = &[
    "{\"name\":\"c\\u0061p\",\"coordinates\":[1.5,-0]}",
    "{\"name\":1,\"coordinates\":[1.5,-0],\"name\":\"cap\"}",
];

/// With one allocation refused, whichever it is, a document's texts are borrowed or memory runs out; a second call
/// borrows them.
#[test]
fn borrows_or_runs_out_of_memory(rt: HostRuntime) {
    let alloc = rt.alloc();
    for text in DOCUMENTS {
        if let Err(fault) = expect_source(&rt, alloc, text) {
            assert!(rt; matches!(fault, TextFault::NoMemory));
            assert!(rt; expect_source(&rt, alloc, text).is_ok());
        }
    }
}
