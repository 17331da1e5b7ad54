//! Laws over every run and every capture.
ghost use Rattle.cf_box.specs.Laws.{HasLaws};

use cf_decode::{
    admits_what_is_allowed, refused_commands_are_told, shown_commands_are_told, stations_decode,
};
use cf_isolation::{captures_hold_sessions, logs_hold_sessions, runs_are_read_back};
use cf_judge::each_asset_is_judged_alone;
use cf_lane::{nobodys_is_refused, one_asset_is_as_before, parts_are_sessions};
use cf_learn::shows_own_units;
use cf_pcapng::{calls_give_blocks, files_have_one_list_of_blocks};
use cf_policy::sites_are_whole;
use cf_records::octets_have_one_list_of_records;
use cf_review::{
    bytes_come_in_order, judge_tells_the_first, records_come_first, syn_flows_are_watched,
};
use cf_run::{records_fix_runs, runs_isolate_sessions};
use cf_session::fewer_segments_are_enough;
use cf_unobjected::{
    flows_are_judged, flows_go_on, judgements_are_one, objections_are_of_shortest_fronts,
    readings_are_one, runs_are_unobjected, unobjected_are_allowed,
};

/// The laws of the layers below that speak of whole runs and whole captures, and of the assets of a session.
pub(crate) fn laws_hold()
    ensures { HasLaws }
{
    runs_isolate_sessions();
    runs_are_read_back();
    captures_hold_sessions();
    logs_hold_sessions();
    fewer_segments_are_enough();
    runs_are_unobjected();
    readings_are_one();
    flows_are_judged();
    judgements_are_one();
    objections_are_of_shortest_fronts();
    flows_go_on();
    unobjected_are_allowed();
    bytes_come_in_order();
    judge_tells_the_first();
    syn_flows_are_watched();
    records_come_first();
    sites_are_whole();
    parts_are_sessions();
    nobodys_is_refused();
    one_asset_is_as_before();
    stations_decode();
    each_asset_is_judged_alone();
    shows_own_units();
    admits_what_is_allowed();
    refused_commands_are_told();
    shown_commands_are_told();
    records_fix_runs();
    octets_have_one_list_of_records();
    files_have_one_list_of_blocks();
    calls_give_blocks();
}
