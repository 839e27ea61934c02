// The calls of the crate klumdray for C: each export has the name, the parameters and the clauses of the proved call,
// and does nothing but call it. tools/make-surface writes this file.
#![tactic(auto)]

ghost use Rattle.std.specs.Prelude.{◌≡◌, ◌&&◌};
ghost use Rattle.octets.specs.Check.{check_octet};
ghost use Rattle.leak.specs.Increment.{increment_in};
ghost use Rattle.leak.specs.Reading.{read_octets};
ghost use Rattle.leak.specs.Writing.{write_code};
ghost use Rattle.site.specs.Stores.{stores};
ghost use Rattle.tracer.specs.Query.{query_of};
ghost use Rattle.klumdray.specs.Block.{coupler_set, lent_right, SteppedThrough};
ghost use Rattle.klumdray.specs.Channels.{TookThrough, SentThrough, ConfirmedThrough};
ghost use Rattle.klumdray.specs.Litres.{value_number, value_given, coded_number, carried_number, AddedThrough, TookFrame};
ghost use Rattle.klumdray.specs.Numbers.{tp1_answered, cemi_answered, routing_answered, request_answered, acknowledgement_answered, are_numbers, are_marks, are_octets, are_connected, meaning_from, message_from, acknowledgement_from, WroteTp1, WroteCemi, WroteRouting, WroteRequest, WroteAcknowledgement};
ghost use Rattle.klumdray.specs.Traces.{explanation_number, TracedThrough, why_through};

#[unsafe(no_mangle)]
pub extern "C" fn klumdray_check_octet(octets: &[u8]) -> u32
    ensures { result ≡ check_octet octets.now }
{
    klumdray::klumdray_check_octet(octets)
}

#[unsafe(no_mangle)]
pub extern "C" fn klumdray_tp1_read(octets: &[u8]) -> u64
    ensures { result ≡ tp1_answered octets.now }
{
    klumdray::klumdray_tp1_read(octets)
}

#[unsafe(no_mangle)]
pub extern "C" fn klumdray_tp1_write(
    extended: u32,
    first: u32,
    priority: u32,
    source: u32,
    group: u32,
    destination: u32,
    count: u32,
    payload: &[u8],
    room: &mut [u8],
) -> u64
    ensures { WroteTp1 (are_numbers extended first priority source group destination count) (meaning_from extended first priority source group destination count) payload.now room.old result room.new }
{
    klumdray::klumdray_tp1_write(
        extended,
        first,
        priority,
        source,
        group,
        destination,
        count,
        payload,
        room,
    )
}

#[unsafe(no_mangle)]
pub extern "C" fn klumdray_cemi_read(octets: &[u8]) -> u64
    ensures { result ≡ cemi_answered octets.now }
{
    klumdray::klumdray_cemi_read(octets)
}

#[unsafe(no_mangle)]
pub extern "C" fn klumdray_cemi_write(
    code: u32,
    error: u32,
    extended: u32,
    first: u32,
    priority: u32,
    source: u32,
    group: u32,
    destination: u32,
    count: u32,
    payload: &[u8],
    room: &mut [u8],
) -> u64
    ensures { WroteCemi (are_numbers extended first priority source group destination count && are_marks code error) (message_from code error (meaning_from extended first priority source group destination count)) payload.now room.old result room.new }
{
    klumdray::klumdray_cemi_write(
        code,
        error,
        extended,
        first,
        priority,
        source,
        group,
        destination,
        count,
        payload,
        room,
    )
}

#[unsafe(no_mangle)]
pub extern "C" fn klumdray_routing_read(octets: &[u8]) -> u64
    ensures { result ≡ routing_answered octets.now }
{
    klumdray::klumdray_routing_read(octets)
}

#[unsafe(no_mangle)]
pub extern "C" fn klumdray_routing_write(
    code: u32,
    error: u32,
    extended: u32,
    first: u32,
    priority: u32,
    source: u32,
    group: u32,
    destination: u32,
    count: u32,
    payload: &[u8],
    room: &mut [u8],
) -> u64
    ensures { WroteRouting (are_numbers extended first priority source group destination count && are_marks code error) (message_from code error (meaning_from extended first priority source group destination count)) payload.now room.old result room.new }
{
    klumdray::klumdray_routing_write(
        code,
        error,
        extended,
        first,
        priority,
        source,
        group,
        destination,
        count,
        payload,
        room,
    )
}

#[unsafe(no_mangle)]
pub extern "C" fn klumdray_tunnelling_request_read(octets: &[u8]) -> u64
    ensures { result ≡ request_answered octets.now }
{
    klumdray::klumdray_tunnelling_request_read(octets)
}

#[unsafe(no_mangle)]
pub extern "C" fn klumdray_tunnelling_request_write(
    channel: u32,
    counter: u32,
    code: u32,
    error: u32,
    extended: u32,
    first: u32,
    priority: u32,
    source: u32,
    group: u32,
    destination: u32,
    count: u32,
    payload: &[u8],
    room: &mut [u8],
) -> u64
    ensures { WroteRequest (are_numbers extended first priority source group destination count && are_marks code error && are_octets channel counter) channel counter (message_from code error (meaning_from extended first priority source group destination count)) payload.now room.old result room.new }
{
    klumdray::klumdray_tunnelling_request_write(
        channel,
        counter,
        code,
        error,
        extended,
        first,
        priority,
        source,
        group,
        destination,
        count,
        payload,
        room,
    )
}

#[unsafe(no_mangle)]
pub extern "C" fn klumdray_tunnelling_ack_read(octets: &[u8]) -> u32
    ensures { result ≡ acknowledgement_answered octets.now }
{
    klumdray::klumdray_tunnelling_ack_read(octets)
}

#[unsafe(no_mangle)]
pub extern "C" fn klumdray_tunnelling_ack_write(
    channel: u32,
    counter: u32,
    status: u32,
    room: &mut [u8],
) -> u64
    ensures { WroteAcknowledgement (are_connected channel counter status) (acknowledgement_from channel counter status) room.old result room.new }
{
    klumdray::klumdray_tunnelling_ack_write(channel, counter, status, room)
}

#[unsafe(no_mangle)]
pub extern "C" fn klumdray_tunnelling_receive(
    channels: &mut [u8],
    octets: &[u8],
    room: &mut [u8],
) -> u64
    ensures { TookThrough channels.old octets.now room.old result channels.new room.new }
{
    klumdray::klumdray_tunnelling_receive(channels, octets, room)
}

#[unsafe(no_mangle)]
pub extern "C" fn klumdray_tunnelling_send(
    channels: &[u8],
    channel: u32,
    code: u32,
    error: u32,
    extended: u32,
    first: u32,
    priority: u32,
    source: u32,
    group: u32,
    destination: u32,
    count: u32,
    payload: &[u8],
    room: &mut [u8],
) -> u64
    ensures { SentThrough (are_numbers extended first priority source group destination count && are_marks code error) channels.now channel (message_from code error (meaning_from extended first priority source group destination count)) payload.now room.old result room.new }
{
    klumdray::klumdray_tunnelling_send(
        channels,
        channel,
        code,
        error,
        extended,
        first,
        priority,
        source,
        group,
        destination,
        count,
        payload,
        room,
    )
}

#[unsafe(no_mangle)]
pub extern "C" fn klumdray_tunnelling_confirm(channels: &mut [u8], octets: &[u8]) -> u32
    ensures { ConfirmedThrough channels.old octets.now result channels.new }
{
    klumdray::klumdray_tunnelling_confirm(channels, octets)
}

#[unsafe(no_mangle)]
pub extern "C" fn klumdray_step(
    settings: &[u8],
    table: &[u8],
    side: u32,
    memory: &mut [u8],
    octets: &[u8],
    room: &mut [u8],
) -> u64
    ensures { SteppedThrough (lent_right settings.now memory.old) (coupler_set settings.now side table.now) memory.old octets.now room.old result memory.new room.new }
{
    klumdray::klumdray_step(settings, table, side, memory, octets, room)
}

#[unsafe(no_mangle)]
pub extern "C" fn klumdray_trace<'a>(
    start: u32,
    kind: u32,
    destination: u32,
    count: u32,
    site: &[u8],
    project: &'a [u8],
    own: &'a [u8],
    room: &mut [u8],
) -> u64
    ensures { TracedThrough (stores project.now own.now) site.now (query_of start kind destination count) room.old result room.new }
{
    klumdray::klumdray_trace(start, kind, destination, count, site, project, own, room)
}

#[unsafe(no_mangle)]
pub extern "C" fn klumdray_why<'a>(
    start: u32,
    kind: u32,
    destination: u32,
    count: u32,
    site: &[u8],
    project: &'a [u8],
    own: &'a [u8],
    line: u32,
) -> u32
    ensures { result ≡ explanation_number (why_through (stores project.now own.now) site.now (query_of start kind destination count) line) }
{
    klumdray::klumdray_why(start, kind, destination, count, site, project, own, line)
}

#[unsafe(no_mangle)]
pub extern "C" fn klumdray_float_value(code: u32) -> u64
    ensures { result ≡ value_number (value_given code) }
{
    klumdray::klumdray_float_value(code)
}

#[unsafe(no_mangle)]
pub extern "C" fn klumdray_float_read(octets: &[u8]) -> u64
    ensures { result ≡ value_number (read_octets octets.now) }
{
    klumdray::klumdray_float_read(octets)
}

#[unsafe(no_mangle)]
pub extern "C" fn klumdray_float_write(hundredths: i64) -> u32
    ensures { result ≡ coded_number (write_code hundredths) }
{
    klumdray::klumdray_float_write(hundredths)
}

#[unsafe(no_mangle)]
pub extern "C" fn klumdray_increment(payload: &[u8]) -> u32
    ensures { result ≡ carried_number (increment_in payload.now) }
{
    klumdray::klumdray_increment(payload)
}

#[unsafe(no_mangle)]
pub extern "C" fn klumdray_total_add(total: &mut [u8], code: u32) -> u32
    ensures { AddedThrough total.old code result total.new }
{
    klumdray::klumdray_total_add(total, code)
}

#[unsafe(no_mangle)]
pub extern "C" fn klumdray_take(
    total: &mut [u8],
    memory: &mut [u8],
    group: u32,
    octets: &[u8],
) -> u32
    ensures { TookFrame total.old memory.old group octets.now result total.new memory.new }
{
    klumdray::klumdray_take(total, memory, group, octets)
}
