// Routes: lists of radio addresses, as relays and polls use them.
ghost use Rattle.std.specs.Prelude.{◌≡◌, ◌*◌, ◌<◌, [], length};
ghost use Rattle.parameters.specs.declared.parameter.Lawful.TheVariants.{RouteUpto};
ghost use Rattle.parameters.specs.Parameters.{admits};
ghost use Rattle.parameters.specs.Values.{byte_at};

use super::store::Unlawful;
use super::value::Value;

/// The six bytes of a radio address.
// kept: (a) six bytes, each of its own, as the slice pattern below names them; an array would change how callers make one.
#[derive(Clone, Copy, Debug, PartialEq, Eq)]
pub struct Address(pub u8, pub u8, pub u8, pub u8, pub u8, pub u8);

/// A route of at most MOST addresses.
// kept: (a) no model: that of a `Copy` type may forget nothing, and a route's addresses forget the rest of its array.
#[derive(Clone, Copy)]
pub struct Route<const MOST: usize> {
    // kept: (c) a count beside an array, not an ArrayVec, as a route is Copy; a count past the array counts as the whole array, and no ghost field bounds it: beside one, `ImageStore::open` gets no proof (a type argument holds a `&mut` and a struct that has a ghost field).
    count: u8,
    addresses: [Address; MOST],
}

impl Address {
    ghost use Rattle.std.specs.List.{flat_map};
    ghost use Rattle.parameters.specs.Routes.{address_bytes};

    /// A byte of the address, or that there is none.
    pub fn byte(self, place: usize) -> Option<u8>
        ensures byte { result ≡ byte_at (address_bytes self) place }
    {
        [self.0, self.1, self.2, self.3, self.4, self.5]
            .get(place)
            .copied()
    }

    // Reads addresses, each out of six bytes.
    fn read(addresses: &mut [Address], bytes: &[u8])
        requires { length bytes.now ≡ 6 * length addresses.old }
        ensures read { flat_map address_bytes addresses.new ≡ bytes.now }
        ensures room { length addresses.new ≡ length addresses.old }
    {
        let mut unread = bytes;
        for address in addresses {
            // kept: (a) no chunks: data taken apart by a slice pattern of six named bytes and the rest is the form that the project asks for.
            let [a, b, c, d, e, f, rest @ ..] = unread else {
                unreachable!();
            };
            *address = Address(*a, *b, *c, *d, *e, *f);
            unread = rest;
        }
    }
}

impl<const MOST: usize> Route<MOST> {
    ghost use Rattle.parameters.specs.Routes.{stops};

    /// The route with no address.
    pub fn new() -> Route<MOST>
        ensures empty { stops result ≡ [] }
    {
        Route {
            count: 0,
            addresses: [Address(0, 0, 0, 0, 0, 0); MOST],
        }
    }

    /// The addresses of the route.
    pub fn addresses(&self) -> &[Address]
        ensures addresses { result.now ≡ stops self.now }
        ensures countable { length result.now < 256 }
    {
        let count = usize::from(self.count).min(MOST);
        &self.addresses[..count]
    }
}

impl<const MOST: usize> Value for Route<MOST> {
    ghost use Rattle.parameters.specs.Routes.{stops, route_form};

    ghost form = { λ route. route_form (stops route) };

    ghost formed = { admits (RouteUpto MOST) };

    fn length(&self) -> usize {
        1 + 6 * self.addresses().len()
    }

    fn byte(&self, place: usize) -> Option<u8> {
        let addresses = self.addresses();
        if place == 0 {
            return Some(addresses.len() as u8);
        }
        let behind = place - 1;
        addresses.get(behind / 6)?.byte(behind % 6)
    }

    fn write(&mut self, value: &[u8]) -> Result<(), Unlawful> {
        let [count, rest @ ..] = value else {
            return Err(Unlawful);
        };
        let stops = usize::from(*count);
        if stops > MOST || rest.len() != 6 * stops {
            return Err(Unlawful);
        }
        Address::read(&mut self.addresses[..stops], rest);
        self.count = *count;
        Ok(())
    }
}
