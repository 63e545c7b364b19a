// The packet header (document 01, "The packet"): kind, write address and route in one word.
#![tactic(auto)]

ghost use Rattle.std.specs.Prelude.{◌≡◌};
ghost use Rattle.refusal.specs.Numbers.{numbered};
ghost use Rattle.packet.specs.Header.{kind_of, address_of, route_of, shifted_word, header_word, header_number, built_of};

use refusal::Refusal;

// A header word. Any word is one: each part of it can be read.
#[derive(Clone, Copy, Debug, PartialEq, Eq)]
pub struct Header(pub u32);

impl Header {
    // The kinds. Constants and no enum: document 01, "How each place should look", names that form.
    pub const DATA: u32 = 0;

    pub const CONFIGURATION: u32 = 1;

    pub const INTERRUPT: u32 = 2;

    pub const UNUSED: u32 = 3;

    // The widths of the fields, and how many kinds, write addresses and routes they can hold.
    pub const KIND_BITS: u32 = 2;

    pub const ADDRESS_BITS: u32 = 14;

    pub const ROUTE_BITS: u32 = 16;

    pub const KINDS: u32 = 1 << Header::KIND_BITS;

    pub const ADDRESSES: u32 = 1 << Header::ADDRESS_BITS;

    pub const ROUTES: u32 = 1 << Header::ROUTE_BITS;

    // The header of the three parts, unless one is too wide for its field.
    #[tactic(auto, using(crate::proofs::HeaderLaws::kind_wide, crate::proofs::HeaderLaws::address_wide, crate::proofs::HeaderLaws::route_wide, crate::proofs::HeaderLaws::all_fit))]
    pub fn new(kind: u32, address: u32, route: u32) -> Result<Header, Refusal>
        ensures { numbered result ≡ built_of (header_number kind address route) (header_word kind address route) }
    {
        if kind >= Header::KINDS || address >= Header::ADDRESSES || route >= Header::ROUTES {
            return Err(Refusal::DoesNotExist);
        }
        Ok(Header((kind * Header::ADDRESSES + address) * Header::ROUTES + route))
    }

    // The kind that the top bits name.
    pub fn kind(self) -> u32
        ensures { result ≡ kind_of self.0 }
    {
        match self.0 >> (Header::ADDRESS_BITS + Header::ROUTE_BITS) {
            0 => Header::DATA,
            1 => Header::CONFIGURATION,
            2 => Header::INTERRUPT,
            _ => Header::UNUSED,
        }
    }

    pub fn address(self) -> u32
        ensures { result ≡ address_of self.0 }
    {
        (self.0 >> Header::ROUTE_BITS) % Header::ADDRESSES
    }

    pub fn route(self) -> u32
        ensures { result ≡ route_of self.0 }
    {
        self.0 % Header::ROUTES
    }

    // The header as the header stage sends it on: its lowest route code taken off, zeros entering.
    pub fn shifted(self) -> Header
        ensures { result.0 ≡ shifted_word self.0 }
    {
        let word = self.0;
        let route = word % Header::ROUTES;
        Header(word - route + route / 4)
    }
}
