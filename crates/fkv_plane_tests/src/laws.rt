//! The laws, which are proved where they stand: here each is called, as a caller would who needs what it says.
use fkv_epoch::{law_of_the_stall, law_of_what_is_loaded, law_once, law_owned, law_protected};
use fkv_frames::{law_places_in_frames, law_places_of_open_pages};
use fkv_index::{
    law_entries, law_homes, law_of_the_eighth_entry, law_one_entry, law_orders, law_searches,
};
use fkv_latch::{law_latched, law_of_a_meeting, law_tasks};
use fkv_log::{
    law_of_a_record_and_a_page, law_of_a_turn_and_a_shift, law_records_are_written,
    law_records_of_open_pages, law_reserve_step, law_reserved_once,
};
use fkv_plane::law_places_apart;
use fkv_words::law_words_apart;

fn laws_of_words_and_places() {
    law_words_apart();
    law_places_apart();
    law_places_of_open_pages();
    law_places_in_frames();
}

fn laws_of_epochs() {
    law_once();
    law_protected();
    law_owned();
    law_of_the_stall();
    law_of_what_is_loaded();
}

fn laws_of_the_log() {
    law_reserved_once();
    law_reserve_step();
    law_records_of_open_pages();
    law_records_are_written();
    law_of_a_record_and_a_page();
    law_of_a_turn_and_a_shift();
}

fn laws_of_the_index() {
    law_homes();
    law_one_entry();
    law_entries();
    law_orders();
    law_of_the_eighth_entry();
    law_searches();
}

fn laws_of_latches() {
    law_latched();
    law_of_a_meeting();
    law_tasks();
}

#[test]
fn each_law_is_called(_rt: HostRuntime) {
    laws_of_words_and_places();
    laws_of_epochs();
    laws_of_the_log();
    laws_of_the_index();
    laws_of_latches();
}
