// The two stores of filter tables: which are stores, and the table that a number chooses.
ghost use Rattle.std.specs.Prelude.{◌≡◌, ◌<◌};
ghost use Rattle.octets.specs.Part.{PartAt};
ghost use Rattle.site.specs.Stores.{stores_in, table_at, start_at, TableFrom, is_store, are_stores};

// The project store, and the site's own.
#[derive(Clone, Copy)]
pub struct Stores<'a> {
    pub project: &'a [u8],
    pub own: &'a [u8],
}

impl<'a> Stores<'a> {
    // "0 to 127 count in the project store, 128 to 254 in the site's own store": the 8,192 octets of the
    // table that a number chooses, as a part of its lent store; empty where the store does not have it.
    pub fn table_of(self, number: u8) -> &'a [u8]
        ensures { TableFrom number self.entry.project self.entry.own result }
    {
        if number < 128 {
            table_at(number, self.project)
        } else if number < 255 {
            table_at(number - 128, self.own)
        } else {
            &self.own[..0]
        }
    }

    pub(crate) fn are_stores(self) -> bool
        ensures { result ≡ are_stores (stores_in self.entry) }
    {
        is_store(128, self.project.len()) & is_store(127, self.own.len())
    }
}

// An empty part where there is none, as in tp1.
fn table_at<'a>(place: u8, store: &'a [u8]) -> &'a [u8]
    ensures { PartAt store.entry result (start_at place store.now) (table_at place store.now) }
{
    let from = usize::from(place) * 8192;
    let to = from + 8192;
    if to <= store.len() {
        &store[from..to]
    } else {
        &store[..0]
    }
}

fn is_store(most: usize, size: usize) -> bool
    requires { most < 256 }
    ensures { result ≡ is_store most size }
{
    (size % 8192 == 0) & (size <= most * 8192)
}
