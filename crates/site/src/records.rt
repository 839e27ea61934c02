// The records of a site, and what each says.
ghost use Rattle.std.specs.Prelude.{◌≡◌};
ghost use Rattle.site.specs.Records.{is_marked, line_of, codes_of, table_number};
ghost use Rattle.site.specs.Starts.{record_from};

// The record that starts at an index; empty where the site does not have it whole.
// An empty part where there is none, as in tp1.
pub(crate) fn record_from(site: &[u8], start: u16) -> &[u8]
    ensures { result.now ≡ record_from site.now start }
{
    let from = start as usize;
    let to = from + 12;
    if to <= site.len() {
        &site[from..to]
    } else {
        &site[..0]
    }
}

pub(crate) fn is_marked(octets: &[u8]) -> bool
    ensures { result ≡ is_marked octets.now }
{
    let first = octets::octet(octets, 0);
    let second = octets::octet(octets, 1);
    (first == 0x43) & (second == 0x50)
}

pub(crate) fn line_of(octets: &[u8]) -> u8
    ensures { result ≡ line_of octets.now }
{
    octets::octet(octets, 2)
}

pub(crate) fn codes_of(octets: &[u8]) -> [[u8; 4]; 2]
    ensures { result ≡ codes_of octets.now }
{
    passing::settings::codes_from(octets, 3)
}

pub(crate) fn table_number(octets: &[u8]) -> u8
    ensures { result ≡ table_number octets.now }
{
    octets::octet(octets, 11)
}
