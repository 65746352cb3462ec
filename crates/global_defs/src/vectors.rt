// Worked bytes and texts.
ghost use Rattle.std.specs.Prelude.{◌≡◌, ◌^◌, ◌*◌, ◌+◌, pos, negsuc, true, false, None, Some, [], ◌∷◌, codes};
ghost use Rattle.std.specs.declared.cmp.Ordering.TheVariants.{Less};
ghost use Rattle.std.specs.Cmp.{IsTotalOrder};
ghost use Rattle.std.specs.FinMap as globals;
ghost use Rattle.global_defs.specs.Numeral.{is_number, value_of, integer_of, integer_text};
ghost use Rattle.global_defs.specs.Key.{Number, Text, sub_of, sub_cmp, key_cmp};
ghost use Rattle.global_defs.specs.Encoded.{encoded};
ghost use Rattle.global_defs.specs.Zwr.{zwr};
ghost use Rattle.global_defs.specs.NodeText.{number_text, node_text};
ghost use Rattle.global_defs.specs.Entry.{Set, Kill, ZKill};
ghost use Rattle.global_defs.specs.Extract.{extract, entries_text};

/// Keys have these bytes and this text.
pub fn key_vectors_hold()
    ensures bare { encoded (record { name = codes "X"; subs = [] }) ≡ 88 ∷ 0 ∷ [] }
    ensures one { encoded (record { name = codes "X"; subs = sub_of (codes "1") ∷ [] }) ≡ 88 ∷ 0 ∷ 3 ∷ 65 ∷ 49 ∷ 0 ∷ [] }
    ensures nine { encoded (record { name = codes "X"; subs = sub_of (codes "9") ∷ [] }) ≡ 88 ∷ 0 ∷ 3 ∷ 65 ∷ 57 ∷ 0 ∷ [] }
    ensures ten { encoded (record { name = codes "X"; subs = sub_of (codes "10") ∷ [] }) ≡ 88 ∷ 0 ∷ 3 ∷ 66 ∷ 49 ∷ 0 ∷ [] }
    ensures half { encoded (record { name = codes "X"; subs = sub_of (codes ".5") ∷ [] }) ≡ 88 ∷ 0 ∷ 3 ∷ 64 ∷ 53 ∷ 0 ∷ [] }
    ensures minus_one { encoded (record { name = codes "X"; subs = sub_of (codes "-1") ∷ [] }) ≡ 88 ∷ 0 ∷ 1 ∷ 190 ∷ 56 ∷ 255 ∷ [] }
    ensures zero { encoded (record { name = codes "X"; subs = sub_of (codes "0") ∷ [] }) ≡ 88 ∷ 0 ∷ 2 ∷ [] }
    ensures letter { encoded (record { name = codes "X"; subs = sub_of (codes "A") ∷ [] }) ≡ 88 ∷ 0 ∷ 4 ∷ 65 ∷ 0 ∷ [] }
    ensures node { node_text (record { name = codes "X"; subs = Number (negsuc (5 * 10 ^ 17)) ∷ Text (codes "01") ∷ [] })
        ≡ codes "^X(-.500000000000000001,\"01\")" }
{}

/// The ZWR form, an integer and an extract have this text.
pub fn text_vectors_hold()
    ensures nothing { zwr [] ≡ codes "\"\"" }
    ensures mixed { zwr (97 ∷ 34 ∷ 98 ∷ 10 ∷ 99 ∷ 255 ∷ []) ≡ codes "\"a\"\"b\"_$C(10)_\"c\"_$C(255)" }
    ensures edges { zwr (126 ∷ 127 ∷ 31 ∷ 32 ∷ []) ≡ codes "\"~\"_$C(127,31)_\" \"" }
    ensures minus { integer_text (negsuc 4) ≡ codes "-5" }
    ensures first_set { extract (codes "A") (record {
      stamp = record { root = codes "A"; cycle = 1 };
      transaction = record {
        origin = record { updater = 1; serial = 1 };
        updates = Set (record { name = codes "X"; subs = Number (pos (10 ^ 18)) ∷ [] }) (codes "a") ∷ [];
      };
    } ∷ []) 1 ≡ codes "GTMRJEX01\\A\\1\nSET\\1\\A.1\\1.1\\^X(1)=\"a\"\n" }
    ensures two_kills { entries_text 7 (record {
      stamp = record { root = codes "A"; cycle = 2 };
      transaction = record {
        origin = record { updater = 3; serial = 4 };
        updates = Kill (record { name = codes "X"; subs = [] }) ∷ ZKill (record { name = codes "Y"; subs = [] }) ∷ [];
      };
    } ∷ []) ≡ codes "TSTART\\7\\A.2\\3.4\nKILL\\7\\A.2\\3.4\\^X\nZKILL\\7\\A.2\\3.4\\^Y\nTCOM\\7\\A.2\\3.4\n" }
{}

/// Subscripts collate so: by value, not by text, and numbers before strings.
pub fn collation_vectors_hold()
    ensures below_zero { sub_cmp (sub_of (codes "-1")) (sub_of (codes "-.5")) ≡ Less }
    ensures zero { sub_cmp (sub_of (codes "-.5")) (sub_of (codes "0")) ≡ Less }
    ensures half { sub_cmp (sub_of (codes "0")) (sub_of (codes ".5")) ≡ Less }
    ensures nine { sub_cmp (sub_of (codes ".5")) (sub_of (codes "9")) ≡ Less }
    ensures ten { sub_cmp (sub_of (codes "9")) (sub_of (codes "10")) ≡ Less }
    ensures plus { sub_cmp (sub_of (codes "10")) (sub_of (codes "+1")) ≡ Less }
    ensures minus_zero { sub_cmp (sub_of (codes "+1")) (sub_of (codes "-0")) ≡ Less }
    ensures leading_zero { sub_cmp (sub_of (codes "-0")) (sub_of (codes "01")) ≡ Less }
    ensures trailing_zero { sub_cmp (sub_of (codes "01")) (sub_of (codes "1.0")) ≡ Less }
    ensures exponent { sub_cmp (sub_of (codes "1.0")) (sub_of (codes "1E5")) ≡ Less }
    ensures upper { sub_cmp (sub_of (codes "1E5")) (sub_of (codes "A")) ≡ Less }
    ensures lower { sub_cmp (sub_of (codes "A")) (sub_of (codes "a")) ≡ Less }
    ensures longest { sub_cmp (sub_of (codes "999999999999999999")) (sub_of (codes "1000000000000000000")) ≡ Less }
    ensures eighteen { sub_of (codes "123456789012345678") ≡ Number (pos (123456789012345678 * 10 ^ 18)) }
    ensures nineteen { sub_of (codes "1234567890123456789") ≡ Text (codes "1234567890123456789") }
    ensures node { key_cmp (record { name = codes "X"; subs = [] }) (record { name = codes "X"; subs = sub_of (codes "1") ∷ [] }) ≡ Less }
{}

/// Keys in M collation are a total order in which equal keys are the same, so that globals are a map.
pub fn order_holds()
    ensures total { IsTotalOrder key_cmp }
    ensures same { globals.IsAntisymmetric key_cmp }
{}
