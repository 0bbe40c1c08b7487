// The event names: the scope's twelve in one table, and E with its number for every other letter.
#![tactic(auto)]

ghost use Rattle.lent.specs.Page.{HasRoomFor, Puts};
ghost use Rattle.events.specs.Events.{event_name};

use lent::Page;
use text::{Words, put_decimal};

// The names of the letters from 0 on.
const NAMES: [&[u8]; 12] = [
    b"READ",
    b"STABLE",
    b"DROP",
    b"DRYHOP",
    b"CRASH",
    b"WARM",
    b"CAP",
    b"VENT",
    b"TRANSFER",
    b"SAMPLE",
    b"CLOCKBACK",
    b"CLOCKON",
];

pub fn put_name(page: &mut Page, letter: u8)
    requires { HasRoomFor page.old (event_name letter) }
    ensures { Puts page.old (event_name letter) page.new }
{
    match NAMES.get(letter as usize) {
        Some(name) => page.put_bytes(name),
        None => {
            page.put_byte(b'E');
            put_decimal(page, letter as u64);
        }
    }
}

// Letters by their names.
pub struct EventNames;

impl Words for EventNames {
    type Value = u8;

    ghost word_of = { event_name };

    fn put(page: &mut Page, letter: u8) {
        put_name(page, letter);
    }
}
