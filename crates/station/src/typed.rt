// The code of a typed station: the first rule that its values break, 1 to 30 and then 31 to 39.
ghost use Rattle.std.specs.Prelude.{◌≡◌};
ghost use Rattle.basics.specs.Rules.{first_broken};
ghost use Rattle.station.specs.Groups.{first_between, last_between};
ghost use Rattle.station.specs.Rules.{typed_rules};
ghost use Rattle.station.specs.Promises.{StationJudged};

use crate::Station;
use basics::rules::first_broken;
use between::{
    is_fixed_at_a_point, is_heard_or_sent, is_heard_with_gain, is_mobile_at_no_height,
    is_mobile_undirected, is_powered_to_send, is_repeater_by_name, is_round_across,
    is_round_upright,
};
use typed_groups::{
    typed_antenna_code, typed_channel_code, typed_coordination_code, typed_emission_code,
    typed_site_code,
};

// Rules 1 to 30, group after group.
fn typed_field_code(s: Station) -> u8
    ensures { result ≡ first_broken 1 (typed_rules s) }
{
    let channel = typed_channel_code(s.channel);
    if channel != 0 {
        return channel;
    }
    let site = typed_site_code(s.site);
    if site != 0 {
        return site;
    }
    let emission = typed_emission_code(s.emission);
    if emission != 0 {
        return emission;
    }
    let antenna = typed_antenna_code(s.antenna);
    if antenna != 0 {
        return antenna;
    }
    typed_coordination_code(s.coordination)
}

// Rules 31 to 34.
fn typed_first_between(s: Station) -> u8
    ensures { result ≡ first_broken 31 (first_between s) }
{
    let rules = [
        is_heard_or_sent(s.channel, s.coordination),
        is_powered_to_send(s.channel, s.emission),
        is_fixed_at_a_point(s.channel, s.site),
        is_mobile_undirected(s.channel, s.emission),
    ];
    first_broken(&rules, 31)
}

// Rules 35 to 39.
fn typed_last_between(s: Station) -> u8
    ensures { result ≡ first_broken 35 (last_between s) }
{
    let rules = [
        is_round_across(s.emission, s.antenna),
        is_round_upright(s.emission, s.antenna),
        is_mobile_at_no_height(s.channel, s.site),
        is_heard_with_gain(s.coordination, s.antenna),
        is_repeater_by_name(s.channel, s.site),
    ];
    first_broken(&rules, 35)
}

// The first broken rule of a typed station, 0 where none is.
pub fn typed_code(s: Station) -> u8
    ensures { StationJudged s result }
{
    let field = typed_field_code(s);
    if field != 0 {
        return field;
    }
    let first = typed_first_between(s);
    if first != 0 {
        return first;
    }
    typed_last_between(s)
}
