// What a primary answers by two histories, and sessions of one linker, each among others.
ghost use Rattle.std.specs.Prelude.{◌≡◌, ◌+◌, ℕ, List, [], ◌∷◌, ◌++◌};
ghost use Rattle.global_defs.specs.Prefix.{History};
ghost use Rattle.lineage_defs.specs.Histories.{IsMatched, IsParted};
ghost use Rattle.wire_defs.specs.Frames.{Resume, RollbackFirst};
ghost use Rattle.wire_defs.specs.Links.{Linking, Past, ConnectionMade, CutsAdded};
ghost use Rattle.ship_defs.specs.Greeting.{IsHello, IsAnswer, carried, greeting};
ghost use Rattle.session_handshake.specs.Connections.{WereMade, MadeAmong, GivenBack};

/// A primary's answer to a HELLO is by the two histories, though a HELLO leaves out reigns that begin past the secondary's length.
pub fn answers_by_histories()
    ensures resume { (name : List ℕ) (theirs mine : History) (n : ℕ) → IsHello (greeting name mine) → IsAnswer theirs (carried mine) (Resume n) → IsMatched theirs mine × (n ≡ mine.length + 1) }
    ensures rollback_first { (name : List ℕ) (theirs mine : History) (n : ℕ) → IsHello (greeting name mine) → IsAnswer theirs (carried mine) (RollbackFirst n) → IsParted n theirs mine }
{}

/// What a session has made of its connections isn't changed by what others do with theirs: several sessions may be begun one after another,
/// and then ended one after another.
pub fn sessions_apart()
    ensures none { (a : Linking) (s : ℕ) → MadeAmong a a s [] }
    ensures own { (a b : Linking) (s : ℕ) (over : List Past) → WereMade a b s over → MadeAmong a b s over }
    ensures other { (a b : Linking) (s t : ℕ) (over : List Past) → WereMade a b t over → (s ≡ t → ⊥) → MadeAmong a b s [] }
    ensures opened { (a b : Linking) (s t : ℕ) → ConnectionMade a b t → (s ≡ t → ⊥) → MadeAmong a b s [] }
    ensures settled { (a b : Linking) (s t more : ℕ) (p : Past) → CutsAdded a b t more → b.past ≡ a.past ++ p ∷ [] → p.session ≡ t → (s ≡ t → ⊥) → MadeAmong a b s [] }
    ensures on { (a b c : Linking) (s : ℕ) (xs ys : List Past) → MadeAmong a b s xs → MadeAmong b c s ys → MadeAmong a c s (xs ++ ys) }
    ensures given_back { (a b c d : Linking) (s : ℕ) (p : Past) → GivenBack a b c d s p → MadeAmong a d s (p ∷ []) }
{}
