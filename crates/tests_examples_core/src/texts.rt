//! Texts of JSON values: which numbers of a text are quoted before it is read, what is read of it, and how a value is
//! printed.
#![tactic(auto, unfolding(crate::specs::Computed::texts))]

ghost use Rattle.std.specs.Prelude.{◌≡◌, ◌∷◌, ◌++◌, [], true, replicate, codes, pos, neg_ℤ, Ok, Err};
ghost use Rattle.mds_text.specs.Fault.{bad_json};
ghost use Rattle.mds_text.specs.Printed.{printed};
ghost use Rattle.mds_text.specs.Quoting.{quoted_text, quoted_count};
ghost use Rattle.mds_text.specs.Reading.{read_text};
ghost use Rattle.mds_text.specs.Tree.{null, boolean, int, text, degrees, list, object, no_items, no_members, items_of, members_of};
ghost use Rattle.tests_examples_core.specs.Values.{nested};

/// A number that isn't plain is put between quotation marks, and the digits within a string stay.
pub fn quoting()
    ensures numbers { quoted_text (codes "{\"a\":-0,\"b\":[1.50,12]}") ≡ codes "{\"a\":\"-0\",\"b\":[\"1.50\",12]}" }
    ensures count { quoted_count (codes "{\"a\":-0,\"b\":[1.50,12]}") ≡ 2 }
    ensures read { read_text (codes "{\"a\":-0,\"b\":[1.50,12]}") ≡ Ok (object (members_of ((codes "a", text (codes "-0")) ∷ (codes "b", list (items_of (text (codes "1.50") ∷ int (pos 12) ∷ []))) ∷ []))) }
    ensures strings { quoted_text (codes "[\"\\\"1.5\",1.5]") ≡ codes "[\"\\\"1.5\",\"1.5\"]" }
    ensures long_number { quoted_text (codes "[1000000000000000000,100000000000000000]") ≡ codes "[\"1000000000000000000\",100000000000000000]" }
    ensures signs { quoted_text (codes "[-5,1e5,2E-1]") ≡ codes "[-5,\"1e5\",\"2E-1\"]" }
{}

/// A token that is no number stays as it is, and the text is refused.
pub fn no_numbers()
    ensures stays { quoted_text (codes "[01]") ≡ codes "[01]" }
    ensures count { quoted_count (codes "[01]") ≡ 0 }
    ensures refused { read_text (codes "[01]") ≡ Err bad_json }
{}

/// The members of an object come in the order of their names, and the last of equal names counts.
pub fn members()
    ensures order { read_text (codes "{\"b\":1,\"a\":2,\"b\":3}") ≡ Ok (object (members_of ((codes "a", int (pos 2)) ∷ (codes "b", int (pos 3)) ∷ []))) }
{}

/// A text is read 127 levels deep, and no deeper.
pub fn depth()
    ensures deepest { read_text (replicate 127 91 ++ replicate 127 93) ≡ Ok (nested 126) }
    ensures too_deep { read_text (replicate 128 91 ++ replicate 128 93) ≡ Err bad_json }
{}

/// A text is one whole value in UTF-8, and its escapes are decoded.
pub fn strings()
    ensures escapes { read_text (codes "\"\\u00e9\\n\\/\"") ≡ Ok (text (195 ∷ 169 ∷ 10 ∷ 47 ∷ [])) }
    ensures no_utf8 { read_text (34 ∷ 255 ∷ 34 ∷ []) ≡ Err bad_json }
    ensures open { read_text (codes "\"a") ≡ Err bad_json }
    ensures two_values { read_text (codes "1 2") ≡ Err bad_json }
{}

/// A value is printed without spaces. Five of the bytes below 32 are escaped by a letter and the others by their
/// number. All bytes from 32 on are printed as they are, but for `"` and `\`, which are escaped.
pub fn printing()
    ensures escapes { printed (text (34 ∷ 92 ∷ 8 ∷ 9 ∷ 10 ∷ 12 ∷ 13 ∷ 31 ∷ 127 ∷ 195 ∷ 169 ∷ [])) ≡ codes "\"\\\"\\\\\\b\\t\\n\\f\\r\\u001f" ++ 127 ∷ 195 ∷ 169 ∷ 34 ∷ [] }
    ensures values { printed (object (members_of ((codes "a", list (items_of (null ∷ boolean true ∷ int (neg_ℤ (pos 5)) ∷ degrees (pos 15000000) ∷ []))) ∷ (codes "b", list no_items) ∷ (codes "c", object no_members) ∷ []))) ≡ codes "{\"a\":[null,true,-5,1.5],\"b\":[],\"c\":{}}" }
{}
