// The surface for C and Rust: numbers and byte slices only. include/klumdray.h documents each call, and has
// a frame's numbers one by one, as they stand here.
#![tactic(auto)]

mod block;
mod counters;
mod litres;
mod numbers;
mod traces;

ghost use Rattle.std.specs.Prelude.{◌≡◌, ◌&&◌};
ghost use Rattle.octets.specs.Check.{check_octet};
ghost use Rattle.leak.specs.Increment.{increment_in};
ghost use Rattle.leak.specs.Reading.{read_octets};
ghost use Rattle.leak.specs.Writing.{write_code};
ghost use Rattle.site.specs.Stores.{stores};
ghost use Rattle.tracer.specs.Query.{query_of};
ghost use Rattle.klumdray.specs.Block.{coupler_set, lent_right, SteppedThrough};
ghost use Rattle.klumdray.specs.Channels.{TookThrough, SentThrough, ConfirmedThrough};
ghost use Rattle.klumdray.specs.Litres.{value_number, value_given, coded_number, carried_number, AddedThrough, TookFrame};
ghost use Rattle.klumdray.specs.Numbers.{tp1_answered, cemi_answered, routing_answered, request_answered, acknowledgement_answered, are_numbers, are_marks, are_octets, are_connected, meaning_from, message_from, acknowledgement_from, WroteTp1, WroteCemi, WroteRouting, WroteRequest, WroteAcknowledgement};
ghost use Rattle.klumdray.specs.Traces.{explanation_number, TracedThrough, why_through};

use cemi::Codes;
use coupler::Coupler;
use frame::Refusal;
use site::Stores;

pub fn klumdray_check_octet(octets: &[u8]) -> u32
    ensures { result ≡ check_octet octets.now }
{
    octets::check_octet(octets) as u32
}

pub fn klumdray_tp1_read(octets: &[u8]) -> u64
    ensures { result ≡ tp1_answered octets.now }
{
    let answer = tp1::read(octets);
    let payload = tp1::payload(answer, octets);
    numbers::of_tp1(answer, payload.len())
}

pub fn klumdray_tp1_write(
    extended: u32,
    first: u32,
    priority: u32,
    source: u32,
    group: u32,
    destination: u32,
    count: u32,
    payload: &[u8],
    room: &mut [u8],
) -> u64
    ensures { WroteTp1 (are_numbers extended first priority source group destination count) (meaning_from extended first priority source group destination count) payload.now room.old result room.new }
{
    let Some(meaning) = numbers::meaning_given(
        extended,
        first,
        priority,
        source,
        group,
        destination,
        count,
    ) else {
        return Refusal::OutOfRange.number() as u64;
    };
    let written = tp1::write(meaning, payload, room);
    numbers::of_written(written)
}

pub fn klumdray_cemi_read(octets: &[u8]) -> u64
    ensures { result ≡ cemi_answered octets.now }
{
    let answer = cemi::read(Codes::All, octets);
    let payload = cemi::payload(answer, octets);
    numbers::of_cemi(answer, payload.len())
}

pub fn klumdray_cemi_write(
    code: u32,
    error: u32,
    extended: u32,
    first: u32,
    priority: u32,
    source: u32,
    group: u32,
    destination: u32,
    count: u32,
    payload: &[u8],
    room: &mut [u8],
) -> u64
    ensures { WroteCemi (are_numbers extended first priority source group destination count && are_marks code error) (message_from code error (meaning_from extended first priority source group destination count)) payload.now room.old result room.new }
{
    let Some(message) = numbers::message_given(
        code,
        error,
        extended,
        first,
        priority,
        source,
        group,
        destination,
        count,
    ) else {
        return Refusal::OutOfRange.number() as u64;
    };
    let written = cemi::write(Codes::All, message, payload, room);
    numbers::of_written(written)
}

pub fn klumdray_routing_read(octets: &[u8]) -> u64
    ensures { result ≡ routing_answered octets.now }
{
    let answer = routing::read(octets);
    let payload = routing::payload(answer, octets);
    numbers::of_cemi(answer, payload.len())
}

pub fn klumdray_routing_write(
    code: u32,
    error: u32,
    extended: u32,
    first: u32,
    priority: u32,
    source: u32,
    group: u32,
    destination: u32,
    count: u32,
    payload: &[u8],
    room: &mut [u8],
) -> u64
    ensures { WroteRouting (are_numbers extended first priority source group destination count && are_marks code error) (message_from code error (meaning_from extended first priority source group destination count)) payload.now room.old result room.new }
{
    let Some(message) = numbers::message_given(
        code,
        error,
        extended,
        first,
        priority,
        source,
        group,
        destination,
        count,
    ) else {
        return Refusal::OutOfRange.number() as u64;
    };
    let written = routing::write(message, payload, room);
    numbers::of_written(written)
}

pub fn klumdray_tunnelling_request_read(octets: &[u8]) -> u64
    ensures { result ≡ request_answered octets.now }
{
    let answer = tunnelling::read_request(octets);
    let message = tunnelling::message(answer, octets);
    let read = numbers::message_answer(answer);
    let payload = cemi::payload(read, message);
    numbers::of_cemi(read, payload.len())
}

pub fn klumdray_tunnelling_request_write(
    channel: u32,
    counter: u32,
    code: u32,
    error: u32,
    extended: u32,
    first: u32,
    priority: u32,
    source: u32,
    group: u32,
    destination: u32,
    count: u32,
    payload: &[u8],
    room: &mut [u8],
) -> u64
    ensures { WroteRequest (are_numbers extended first priority source group destination count && are_marks code error && are_octets channel counter) channel counter (message_from code error (meaning_from extended first priority source group destination count)) payload.now room.old result room.new }
{
    let Some(message) = numbers::message_given(
        code,
        error,
        extended,
        first,
        priority,
        source,
        group,
        destination,
        count,
    ) else {
        return Refusal::OutOfRange.number() as u64;
    };
    let written = numbers::write_request(channel, counter, message, payload, room);
    numbers::of_written(written)
}

pub fn klumdray_tunnelling_ack_read(octets: &[u8]) -> u32
    ensures { result ≡ acknowledgement_answered octets.now }
{
    let answer = tunnelling::read_acknowledgement(octets);
    numbers::of_acknowledged(answer)
}

pub fn klumdray_tunnelling_ack_write(
    channel: u32,
    counter: u32,
    status: u32,
    room: &mut [u8],
) -> u64
    ensures { WroteAcknowledgement (are_connected channel counter status) (acknowledgement_from channel counter status) room.old result room.new }
{
    if !numbers::are_connected(channel, counter, status) {
        return Refusal::OutOfRange.number() as u64;
    }
    let acknowledgement = numbers::acknowledgement_from(channel, counter, status);
    let written = tunnelling::write_acknowledgement(acknowledgement, room);
    numbers::of_written(written)
}

pub fn klumdray_tunnelling_receive(channels: &mut [u8], octets: &[u8], room: &mut [u8]) -> u64
    ensures { TookThrough channels.old octets.now room.old result channels.new room.new }
{
    if counters::are_channels(channels) {
        let number = octets::octet(octets, 7);
        let channel = counters::channel_in(channels, number);
        let answer = exchange::receive_on(channel, octets, room);
        counters::raise_received(answer, channel, number, channels);
        let message = exchange::message(answer, octets);
        counters::of_received(answer, message)
    } else {
        Refusal::OutOfRange.number() as u64
    }
}

pub fn klumdray_tunnelling_send(
    channels: &[u8],
    channel: u32,
    code: u32,
    error: u32,
    extended: u32,
    first: u32,
    priority: u32,
    source: u32,
    group: u32,
    destination: u32,
    count: u32,
    payload: &[u8],
    room: &mut [u8],
) -> u64
    ensures { SentThrough (are_numbers extended first priority source group destination count && are_marks code error) channels.now channel (message_from code error (meaning_from extended first priority source group destination count)) payload.now room.old result room.new }
{
    if !counters::are_channels(channels) {
        return Refusal::OutOfRange.number() as u64;
    }
    let Some(message) = numbers::message_given(
        code,
        error,
        extended,
        first,
        priority,
        source,
        group,
        destination,
        count,
    ) else {
        return Refusal::OutOfRange.number() as u64;
    };
    let written = counters::send(channels, channel, message, payload, room);
    numbers::of_written(written)
}

pub fn klumdray_tunnelling_confirm(channels: &mut [u8], octets: &[u8]) -> u32
    ensures { ConfirmedThrough channels.old octets.now result channels.new }
{
    if counters::are_channels(channels) {
        let number = octets::octet(octets, 7);
        let channel = counters::channel_in(channels, number);
        let answer = exchange::confirm_on(channel, octets);
        counters::raise_confirmed(answer, channel, number, channels);
        counters::of_confirmed(answer)
    } else {
        Refusal::OutOfRange.number() as u32
    }
}

pub fn klumdray_step(
    settings: &[u8],
    table: &[u8],
    side: u32,
    memory: &mut [u8],
    octets: &[u8],
    room: &mut [u8],
) -> u64
    ensures { SteppedThrough (lent_right settings.now memory.old) (coupler_set settings.now side table.now) memory.old octets.now room.old result memory.new room.new }
{
    let right = block::are_settings(settings) & (memory.len() == 530);
    if right {
        let receiving = block::side_of(side);
        let coupler = Coupler {
            setting: block::setting_in(settings, receiving),
            codes: block::codes_in(settings),
            table,
        };
        let start = block::start_of(receiving);
        let from = start + 2;
        let end = from + block::kept_in(memory, start);
        let outcome = coupler.hand_on(&memory[from..end], octets, room);
        let accepted = outcome.refusal.is_none() & !coupler.from_ip();
        block::remember_if(accepted, memory, start, octets);
        block::of_outcome(outcome)
    } else {
        Refusal::OutOfRange.number() as u64
    }
}

pub fn klumdray_trace<'a>(
    start: u32,
    kind: u32,
    destination: u32,
    count: u32,
    site: &[u8],
    project: &'a [u8],
    own: &'a [u8],
    room: &mut [u8],
) -> u64
    ensures { TracedThrough (stores project.now own.now) site.now (query_of start kind destination count) room.old result room.new }
{
    let Some(query) = traces::query_given(start, kind, destination, count) else {
        return Refusal::OutOfRange.number() as u64;
    };
    let traced = tracer::trace(query, site, Stores { project, own }, room);
    traces::of_traced(traced)
}

pub fn klumdray_why<'a>(
    start: u32,
    kind: u32,
    destination: u32,
    count: u32,
    site: &[u8],
    project: &'a [u8],
    own: &'a [u8],
    line: u32,
) -> u32
    ensures { result ≡ explanation_number (why_through (stores project.now own.now) site.now (query_of start kind destination count) line) }
{
    let Ok(line) = u8::try_from(line) else {
        return Refusal::OutOfRange.number() as u32;
    };
    let Some(asked) = traces::query_given(start, kind, destination, count) else {
        return Refusal::OutOfRange.number() as u32;
    };
    let explanation = tracer::why(asked, site, Stores { project, own }, line);
    traces::of_explanation(explanation)
}

pub fn klumdray_float_value(code: u32) -> u64
    ensures { result ≡ value_number (value_given code) }
{
    match u16::try_from(code) {
        Ok(code) => litres::of_value(leak::read(code)),
        Err(_) => Refusal::OutOfRange.number() as u64,
    }
}

pub fn klumdray_float_read(octets: &[u8]) -> u64
    ensures { result ≡ value_number (read_octets octets.now) }
{
    litres::of_value(leak::read_octets(octets))
}

pub fn klumdray_float_write(hundredths: i64) -> u32
    ensures { result ≡ coded_number (write_code hundredths) }
{
    litres::of_coded(leak::write(hundredths))
}

pub fn klumdray_increment(payload: &[u8]) -> u32
    ensures { result ≡ carried_number (increment_in payload.now) }
{
    litres::of_carried(leak::increment(payload))
}

pub fn klumdray_total_add(total: &mut [u8], code: u32) -> u32
    ensures { AddedThrough total.old code result total.new }
{
    let right = (total.len() == 8) & (code < 65536);
    if right {
        let held = litres::total_in(total);
        let added = leak::add(held, code as u16);
        litres::put_sum(added, total);
        litres::of_added(added)
    } else {
        Refusal::OutOfRange.number() as u32
    }
}

pub fn klumdray_take(total: &mut [u8], memory: &mut [u8], group: u32, octets: &[u8]) -> u32
    ensures { TookFrame total.old memory.old group octets.now result total.new memory.new }
{
    let right = (total.len() == 8) & (memory.len() == 265) & (group < 65536);
    if right {
        let held = litres::total_in(total);
        let end = 2 + block::kept_in(memory, 0);
        let taken = station::take(held, group as u16, &memory[2..end], octets);
        litres::put_taken(taken, total);
        block::remember_if(litres::is_accepted(taken), memory, 0, octets);
        litres::of_taken(taken)
    } else {
        Refusal::OutOfRange.number() as u32
    }
}
