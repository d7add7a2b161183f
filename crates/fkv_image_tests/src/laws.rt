//! Each law is called once: that shows it needs nothing.

fn laws_of_maps() {
    fkv_map::law_content_append();
    fkv_map::law_legal_append();
    fkv_map::law_by_key();
    fkv_map::law_one_more();
    fkv_map::law_legal_firsts();
    fkv_map::law_kept_whole();
    fkv_map::law_kept_again();
    fkv_map::law_whole_up_to_points();
    fkv_map::law_each_once();
    fkv_map::law_lives_follow();
}

fn laws_of_devices() {
    fkv_disk::law_torn();
    fkv_disk::law_synced();
    fkv_disk::law_written_and_synced();
    fkv_disk::law_anything_in_range();
    fkv_disk::law_forgotten();
    fkv_disk::law_fuse_says();
}

fn laws_of_slots() {
    fkv_record::law_formats_apart();
    fkv_record::law_first_format();
    fkv_record::law_spellings_apart();
    fkv_manifest::law_gates();
    fkv_manifest::law_order();
    fkv_manifest::law_commits_follow();
    fkv_manifest::law_slots_are_named();
}

fn laws_of_images() {
    fkv_newest::law_no_fault();
    fkv_newest::law_one_fault();
    fkv_newest::law_read_alike();
    fkv_chains::law_no_fault();
    fkv_chains::law_entries();
    fkv_room::law_no_fault();
    fkv_pairs::law_chain_of_entry();
    fkv_creating::law_new_is_sound();
}

#[test]
fn laws_stand(_rt: HostRuntime) {
    laws_of_maps();
    laws_of_devices();
    laws_of_slots();
    laws_of_images();
}
