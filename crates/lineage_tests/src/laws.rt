// Each law, called once.
use lineage_defs::{histories_differ, reigns_begin_once, sequences_disagree, steps_are_refused};
use resync_core::{
    histories_hold, lineage_holds, outcomes_hold, parting_holds, reigns_hold, runs_hold,
    stamps_hold, steps_hold, switch_holds, worlds_begin_fit,
};

#[test]
fn laws_do_nothing() {
    lineage_holds();
    histories_hold();
    reigns_hold();
    stamps_hold();
    outcomes_hold();
    worlds_begin_fit();
    steps_hold();
    runs_hold();
    switch_holds();
    parting_holds();
    steps_are_refused();
    reigns_begin_once();
    sequences_disagree();
    histories_differ();
}
