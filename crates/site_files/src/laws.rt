//! What was read, as the records that files hold; and what drawing the next generation leaves of what they stand for.
ghost use Rattle.std.specs.Prelude.{◌≡◌, ℕ, suc, ◌<◌, ◌≤◌, ◌^◌, ◌++◌, ◌∷◌, [], Bool, List, length, take};
ghost use Rattle.site_defs.specs.Limits.{LAST_GENERATION};
ghost use Rattle.global_defs.specs.declared.limits.TheConstants.{MOST_GENERATIONS, NUMBERS_END};
ghost use Rattle.disk_defs.specs.Disk.{Files, Image};
ghost use Rattle.disk_defs.specs.Frames.{Only, SameOutside};
ghost use Rattle.global_defs.specs.Entry.{Sequence};
ghost use Rattle.journal_defs.specs.Numbers.{lost_file};
ghost use Rattle.journal_defs.specs.Instance.{InstanceRecord, regions, generation, site_name};
ghost use Rattle.journal_defs.specs.Sequence.{Placed, Records};
ghost use Rattle.journal_defs.specs.Broken.{broken, broken_text};
ghost use Rattle.journal_defs.specs.Growth.{NonePast, with_record};
ghost use Rattle.journal_defs.specs.Stands.{AreRecords, IsJournal};
ghost use Rattle.journal_defs.specs.Sound.{NoEpochPast};
ghost use Rattle.journal_defs.specs.Fit.{IsSoundImage};
ghost use Rattle.site_files.specs.Loading.{MayBeOpened, AreRead, WasRead, IsUncut, HasDrawnAs, HasCut, AreUnbegun, next_cut, next_broken, drawn_records_as};

use repl_disk::Disk;

/// Files in which a site was read hold the records that were read. It does nothing.
pub fn reading_gives_the_records()
    ensures { (rs : List InstanceRecord) (last : ℕ → ℕ) (journal : ℕ → List Placed) (files : Files) → AreRead rs last journal files → AreRecords files (record { instance = rs; journal = journal }) }
{}

/// What was read of a disk stands in each of its images. It does nothing.
pub fn images_have_what_was_read<D: Disk>(disk: &D)
    ensures { (rs : List InstanceRecord) (last : ℕ → ℕ) (journal : ℕ → List Placed) (files : Files) → WasRead (D.disk disk.now) rs last journal files → (c : Files) → Image (D.disk disk.now) c → AreRead rs last journal c }
{}

/// Whatever a crash leaves of the drawing of the next generation, the files stand for the sequence from before. Once it is drawn no
/// part and no epoch past the length counts, and the broken-transaction file has the text of the broken list. So it is anew and in the
/// regions' modes.
pub fn drawing_keeps_the_sequence()
    ensures uncut { (a b : Files) (s : Records) (seq : Sequence) (last : ℕ → ℕ) (text : List ℕ) → IsSoundImage a s seq → MayBeOpened s.instance last
        → AreRead s.instance last s.journal a → text ≡ broken_text (site_name s.instance) (length seq) (broken s (length seq))
        → IsUncut s.instance text a b → IsSoundImage b s seq }
    ensures drawn { (anew : Bool) (a b : Files) (s : Records) (seq : Sequence) (last : ℕ → ℕ) (text : List ℕ) (k : ℕ) → IsSoundImage a s seq
        → MayBeOpened s.instance last → AreRead s.instance last s.journal a
        → HasDrawnAs anew s.instance (length seq) text last k a b → IsSoundImage b (drawn_records_as anew s (length seq) last k) seq }
    ensures text { (anew : Bool) (a b : Files) (s : Records) (seq : Sequence) (last : ℕ → ℕ) (text : List ℕ) (k : ℕ) → IsSoundImage a s seq
        → MayBeOpened s.instance last → text ≡ broken_text (site_name s.instance) (length seq) (broken s (length seq))
        → HasDrawnAs anew s.instance (length seq) text last k a b → b (next_broken s.instance) ≡ text }
    ensures none_past { (anew : Bool) (a : Files) (s : Records) (seq : Sequence) (last : ℕ → ℕ) (k : ℕ) → IsSoundImage a s seq
        → NonePast (length seq) (drawn_records_as anew s (length seq) last k) }
    ensures no_epoch_past { (anew : Bool) (a : Files) (s : Records) (seq : Sequence) (last : ℕ → ℕ) (k r : ℕ) → IsSoundImage a s seq
        → NoEpochPast (length seq) (drawn_records_as anew s (length seq) last k).instance ((drawn_records_as anew s (length seq) last k).journal r) }
    ensures cut_off { (a b : Files) (s : Records) (seq : Sequence) (last : ℕ → ℕ) (text : List ℕ) → IsSoundImage a s seq
        → MayBeOpened s.instance last → AreRead s.instance last s.journal a
        → HasCut s.instance (length seq) text a b → IsSoundImage b (with_record s (next_cut s.instance (length seq))) seq }
    // with a CUT to the first t entries these are left
    ensures drawn_to { (anew : Bool) (a b : Files) (s : Records) (seq : Sequence) (t : ℕ) (last : ℕ → ℕ) (text : List ℕ) (k : ℕ) → IsSoundImage a s seq → t ≤ length seq
        → MayBeOpened s.instance last → AreRead s.instance last s.journal a
        → HasDrawnAs anew s.instance t text last k a b → IsSoundImage b (drawn_records_as anew s t last k) (take t seq) }
    ensures text_to { (anew : Bool) (a b : Files) (s : Records) (seq : Sequence) (t : ℕ) (last : ℕ → ℕ) (text : List ℕ) (k : ℕ) → IsSoundImage a s seq
        → MayBeOpened s.instance last → text ≡ broken_text (site_name s.instance) (length seq) (broken s (length seq))
        → HasDrawnAs anew s.instance t text last k a b → b (next_broken s.instance) ≡ text }
    ensures none_past_to { (anew : Bool) (a : Files) (s : Records) (seq : Sequence) (t : ℕ) (last : ℕ → ℕ) (k : ℕ) → IsSoundImage a s seq
        → NonePast t (drawn_records_as anew s t last k) }
    ensures no_epoch_past_to { (anew : Bool) (a : Files) (s : Records) (seq : Sequence) (t : ℕ) (last : ℕ → ℕ) (k r : ℕ) → IsSoundImage a s seq
        → NoEpochPast t (drawn_records_as anew s t last k).instance ((drawn_records_as anew s t last k).journal r) }
    // the journals of older generations stay
    ensures uncut_older { (a b : Files) (s : Records) (last : ℕ → ℕ) (text : List ℕ) (r : ℕ) → MayBeOpened s.instance last → AreRead s.instance last s.journal a
        → IsUncut s.instance text a b → r < length (regions s.instance) → IsJournal b r (generation s.instance) (last r) (s.journal r) }
    ensures drawn_older { (anew : Bool) (a b : Files) (s : Records) (n : ℕ) (last : ℕ → ℕ) (text : List ℕ) (k r : ℕ) → MayBeOpened s.instance last
        → AreRead s.instance last s.journal a → HasDrawnAs anew s.instance n text last k a b → r < length (regions s.instance)
        → IsJournal b r (generation s.instance) (last r) (s.journal r) }
{}

/// A site that is cut off has the journals that were read of it, and another generation may be drawn. It does nothing.
pub fn cutting_off_leaves_a_site()
    ensures form { (rs : List InstanceRecord) (n : ℕ) (last : ℕ → ℕ) → MayBeOpened rs last → generation rs < LAST_GENERATION → n < NUMBERS_END
        → MayBeOpened (rs ++ next_cut rs n ∷ []) last }
    ensures regions { (rs : List InstanceRecord) (n : ℕ) (last : ℕ → ℕ) → MayBeOpened rs last → regions (rs ++ next_cut rs n ∷ []) ≡ regions rs }
    ensures newest { (rs : List InstanceRecord) (n : ℕ) (last : ℕ → ℕ) → MayBeOpened rs last → generation (rs ++ next_cut rs n ∷ []) ≡ suc (generation rs) }
    ensures read { (a b : Files) (rs : List InstanceRecord) (n : ℕ) (last : ℕ → ℕ) (journal : ℕ → List Placed) (text : List ℕ) → MayBeOpened rs last
        → AreRead rs last journal a → AreUnbegun (suc (suc (generation rs))) (length (regions rs)) a → HasCut rs n text a b
        → AreRead (rs ++ next_cut rs n ∷ []) last journal b }
    // the lost-transaction files are no part of that
    ensures lost { (a b : Files) (rs : List InstanceRecord) (last : ℕ → ℕ) (journal : ℕ → List Placed) (g : ℕ) → MayBeOpened rs last
        → AreRead rs last journal a → g ≤ MOST_GENERATIONS → SameOutside (Only (lost_file g)) a b → AreRead rs last journal b }
{}

/// The lost-transaction file of a generation that was drawn may have any bytes. It does nothing.
pub fn lost_files_are_free()
    ensures { (a b : Files) (s : Records) (seq : Sequence) (g : ℕ) → IsSoundImage a s seq → g ≤ generation s.instance
        → SameOutside (Only (lost_file g)) a b → IsSoundImage b s seq }
{}
