// Laws of encoded keys, and of subscripts' own bytes.
ghost use Rattle.std.specs.Prelude.{◌≡◌, ℤ, true, nat_eq};
ghost use Rattle.std.specs.List.{starts_with};
ghost use Rattle.std.specs.Ordering.{nat_cmp};
ghost use Rattle.std.specs.Cmp.Lexicographic.{slice_cmp};
ghost use Rattle.global_defs.specs.Numeral.{is_number, value_of};
ghost use Rattle.global_defs.specs.Key.{Key, Sub, sub_of, key_cmp};
ghost use Rattle.global_defs.specs.Encoded.{encoded};
ghost use Rattle.global_defs.specs.NodeText.{number_text, sub_bytes};
ghost use Rattle.global_defs.specs.Entry.{is_under};
ghost use Rattle.global_defs.specs.Valid.{is_sub, is_key};

/// Encoded keys, a prefix first, collate byte by byte as the keys do. Two keys never share an encoded form, and that of a
/// node begins those of its descendants and no others.
pub fn encoded_keys_collate()
    ensures order { (a b : Key) → is_key a ≡ true → is_key b ≡ true → slice_cmp nat_cmp (encoded a) (encoded b) ≡ key_cmp a b }
    ensures injective { (a b : Key) → is_key a ≡ true → is_key b ≡ true → encoded a ≡ encoded b → a ≡ b }
    ensures descendants { (top key : Key) → is_key top ≡ true → is_key key ≡ true → starts_with nat_eq (encoded key) (encoded top) ≡ is_under top key }
{}

/// A number's text has its value, and a subscript's own bytes make it again.
pub fn sub_bytes_make_subs()
    ensures value { (x : ℤ) → is_number (number_text x) ≡ true → value_of (number_text x) ≡ x }
    ensures made { (sub : Sub) → is_sub sub ≡ true → sub_of (sub_bytes sub) ≡ sub }
{}
