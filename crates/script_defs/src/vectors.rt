// Worked texts of statements.
ghost use Rattle.std.specs.Prelude.{◌≡◌, ◌∷◌, [], Ok, Err, codes};
ghost use Rattle.global_defs.specs.Key.{sub_of};
ghost use Rattle.global_defs.specs.Jobs as jobs;
ghost use Rattle.script_defs.specs.Parts as parts;
ghost use Rattle.script_defs.specs.Statements.{statement_reading};

/// Texts are read so.
#[tactic(auto, unfolding(gvn_key::specs::KeyText::subs_at))]
pub fn statements_hold()
    ensures plain { statement_reading (codes "SET  ^X(\"a\")=10") ≡ Ok (jobs.Set (record { name = codes "X"; subs = sub_of (codes "a") ∷ [] }) (codes "10")) }
    ensures empty { statement_reading (codes "ORDER ^X(\"\")") ≡ Ok (jobs.Order (record { name = codes "X"; subs = [] }) []) }
    ensures key { statement_reading (codes "GET ^X=5") ≡ Err (record { part = 4; error = parts.BadChar 4 }) }
    ensures equals { statement_reading (codes "SET ^X =1") ≡ Err (record { part = 6; error = parts.BadChar 6 }) }
    ensures value { statement_reading (codes "SET ^X= 1") ≡ Err (record { part = 7; error = parts.BadQuote 7 }) }
    ensures unclosed { statement_reading (codes "SET ^X=\"a 1") ≡ Err (record { part = 7; error = parts.BadQuote 11 }) }
    ensures level { statement_reading (codes "ORDER ^X") ≡ Err (record { part = 6; error = parts.BadChar 6 }) }
{}
