//! Small cases of epochs, images and leaves.

ghost use Rattle.std.specs.Prelude.{◌≡◌, ◌==◌, if◌then◌else◌, true, false, [], ◌∷◌, replicate, Some, None};
ghost use Rattle.std.specs.FinMap as globals;
ghost use Rattle.journal_defs.specs.Instance.{Cut};
ghost use Rattle.journal_defs.specs.Epochs.{chosen, beginning, image_of, image_state, block_of, first_without};
ghost use Rattle.journal_defs.specs.Undo.{MayWrite, MayLog};
ghost use Rattle.journal_defs.specs.Journal.{Pblk};
ghost use Rattle.journal_defs.specs.Leaves.{Decodes};
ghost use Rattle.journal_defs.specs.Sound.{AreWhole};
ghost use Rattle.journal_defs.specs.Samples.{begins, epoch, image, images};

/// The last surviving epoch up to the target is chosen, with the records after it.
pub fn chosen_epochs_are()
    ensures last { chosen [] 9 (epoch 1 2 4 ∷ image 1 7 1 ∷ epoch 1 3 5 ∷ image 1 7 2 ∷ []) ≡ record { number = 3; blocks = 5; after = image 1 7 2 ∷ [] } }
    ensures up_to_the_target { chosen [] 2 (epoch 1 2 4 ∷ epoch 1 3 5 ∷ []) ≡ record { number = 2; blocks = 4; after = epoch 1 3 5 ∷ [] } }
    ensures discarded { chosen (Cut 2 2 ∷ []) 9 (epoch 1 2 4 ∷ epoch 1 3 5 ∷ []) ≡ record { number = 2; blocks = 4; after = epoch 1 3 5 ∷ [] } }
    // an epoch with a greater number was discarded, and a later one is chosen
    ensures later { chosen (Cut 2 2 ∷ []) 9 (epoch 1 3 5 ∷ epoch 2 2 4 ∷ []) ≡ record { number = 2; blocks = 4; after = [] } }
    // of two epochs the later has the lesser number
    ensures by_place { chosen [] 9 (epoch 1 3 5 ∷ epoch 2 2 4 ∷ []) ≡ record { number = 2; blocks = 4; after = [] } }
    ensures no_epoch { chosen [] 1 (image 1 7 1 ∷ epoch 1 2 4 ∷ []) ≡ beginning (image 1 7 1 ∷ epoch 1 2 4 ∷ []) }
{}

/// The oldest image after the epoch stands for a block, the file where there is none, and nothing past `blocks`.
pub fn image_states_are()
    ensures oldest { image_of images 7 ≡ Some (1 ∷ []) }
    ensures no_image { image_of images 9 ≡ None }
    ensures by_image { image_state (record { number = 1; blocks = 8; after = images }) (λ b. b ∷ []) 7 ≡ Some (1 ∷ []) }
    ensures by_file { image_state (record { number = 1; blocks = 8; after = images }) (λ b. b ∷ []) 6 ≡ Some (6 ∷ []) }
    ensures past_blocks { image_state (record { number = 1; blocks = 8; after = images }) (λ b. b ∷ []) 8 ≡ None }
    ensures empty_database { image_state (beginning images) (λ b. b ∷ []) 0 ≡ Some (replicate 4096 0) }
    ensures no_other_block { image_state (beginning images) (λ b. b ∷ []) 7 ≡ None }
    ensures short_file { block_of (5 ∷ 6 ∷ []) 0 ≡ 5 ∷ 6 ∷ [] }
{}

/// A block may be written where it isn't below `blocks` or has an image after the epoch, and an image may be appended also where the
/// block stands on the file so.
pub fn writes_are_allowed()
    ensures past_blocks { MayWrite (record { number = 1; blocks = 8; after = [] }) 8 }
    ensures imaged { MayWrite (record { number = 1; blocks = 8; after = images }) 7 }
    ensures not_imaged { MayWrite (record { number = 1; blocks = 8; after = images }) 6 → ⊥ }
    ensures as_on_the_file { MayLog (record { number = 1; blocks = 8; after = [] }) (λ b. b ∷ []) (record { block = 6; bytes = 6 ∷ [] }) }
    ensures not_as_on_the_file { MayLog (record { number = 1; blocks = 8; after = [] }) (λ b. b ∷ []) (record { block = 6; bytes = 5 ∷ [] }) → ⊥ }
{}

/// A file that ends before the epoch's blocks do doesn't have them, but by an image.
pub fn blocks_are_whole()
    ensures short_file { AreWhole (image_state (record { number = 1; blocks = 2; after = [] }) (block_of (replicate 4096 0))) → ⊥ }
    ensures by_image { AreWhole (image_state (record { number = 1; blocks = 2; after = record { generation = 1; what = Pblk (record { block = 1; bytes = replicate 4096 0 }) } ∷ [] })
        (block_of (replicate 4096 0))) }
{}

/// A block of zeros is an empty leaf.
pub fn empty_database_decodes()
    ensures { Decodes (λ b. if b == 0 then Some (replicate 4096 0) else None) globals.empty }
{}

/// A record after the epoch in a generation of mode 0 asks for forward recovery, and names the first such generation.
pub fn forward_recovery_is_named()
    ensures mode_before { first_without (begins 1 true ∷ image 1 7 1 ∷ []) (beginning (begins 1 true ∷ image 1 7 1 ∷ [])) ≡ None }
    ensures mode_nobefore { first_without (begins 1 true ∷ begins 2 false ∷ begins 3 false ∷ []) (beginning (begins 1 true ∷ begins 2 false ∷ begins 3 false ∷ [])) ≡ Some 2 }
    // the generation began before the epoch, and a record of it stands after
    ensures its_record { first_without (begins 2 false ∷ epoch 2 3 1 ∷ image 2 7 1 ∷ []) (chosen [] 3 (begins 2 false ∷ epoch 2 3 1 ∷ image 2 7 1 ∷ [])) ≡ Some 2 }
    ensures closed { first_without (begins 2 false ∷ epoch 2 3 1 ∷ begins 3 true ∷ []) (chosen [] 3 (begins 2 false ∷ epoch 2 3 1 ∷ begins 3 true ∷ [])) ≡ None }
    ensures lesser_target { first_without (begins 2 false ∷ epoch 2 3 1 ∷ begins 3 true ∷ []) (chosen [] 2 (begins 2 false ∷ epoch 2 3 1 ∷ begins 3 true ∷ [])) ≡ Some 2 }
{}
