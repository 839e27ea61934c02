// The KNXnet/IP header, told the service wanted.
#![tactic(auto)]

ghost use Rattle.std.specs.Prelude.{◌≡◌};
ghost use Rattle.octets.specs.Room.{laid};
ghost use Rattle.knxnetip.specs.Header.{header_of, is_other_header, is_other_service, is_other_length, read_header};

use frame::Refusal;

#[tactic(auto, unfolding(crate::specs::Header::is_other_header))]
fn is_other_header(octets: &[u8]) -> bool
    ensures { result ≡ is_other_header octets.now }
{
    let right = (octets::octet(octets, 0) == 0x06) & (octets::octet(octets, 1) == 0x10);
    !right
}

#[tactic(auto, unfolding(crate::specs::Header::is_other_service))]
fn is_other_service(octets: &[u8], service: u16) -> bool
    ensures { result ≡ is_other_service service octets.now }
{
    octets::word_at(octets, 2) != service
}

#[tactic(auto, unfolding(crate::specs::Header::is_other_length))]
fn is_other_length(octets: &[u8]) -> bool
    ensures { result ≡ is_other_length octets.now }
{
    let total = octets::word_at(octets, 4);
    total as usize != octets.len()
}

// The header of a datagram, told which service is wanted: a number, and no enum, for the contract is of every service.
#[tactic(auto, unfolding(crate::specs::Header::read_header))]
pub fn read_header(octets: &[u8], service: u16) -> Result<(), Refusal>
    ensures { result ≡ read_header service octets.now }
{
    if octets.len() < 6 {
        return Err(Refusal::TooFew);
    }
    if is_other_header(octets) {
        return Err(Refusal::OtherHeader);
    }
    if is_other_service(octets, service) {
        return Err(Refusal::OtherService);
    }
    if is_other_length(octets) {
        return Err(Refusal::OtherLength);
    }
    Ok(())
}

// Lays the header of a service over the front of a room.
pub fn lay_header(service: u16, total: u16, room: &mut [u8])
    ensures { room.new ≡ laid (header_of service total) 0 room.old }
{
    let header = [
        0x06,
        0x10,
        octets::high_octet(service),
        octets::low_octet(service),
        octets::high_octet(total),
        octets::low_octet(total),
    ];
    octets::lay(&header, 0, room);
}
