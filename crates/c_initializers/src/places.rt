//! The parts of an object that the items of a list in braces initialise (C11 6.7.9p17, p20).

ghost use Rattle.std.specs.Prelude.{◌≡◌, ◌*◌, ◌<◌, IfOk};
ghost use Rattle.c_expressions.specs.Nodes.{IsWhole, type_count};
ghost use Rattle.c_initializers.specs.Places.{place_at, ArePlaces};

use crate::sizes::{size_of, stripped};
use c_elaborator::Work;
use c_expressions::Class;
use c_plain_rules::{Place, first_members};
use ck_base::NoMemory;

/// The parts that the items of a list in braces initialise, one after another.
#[derive(Drop)]
pub enum Places {
    /// The elements of an array.
    Elements {
        /// The number of their type.
        of: u32,
        /// The bytes of each.
        size: u32,
        /// How many there are, 0 where that is not known.
        count: u64,
    },
    /// The members of a struct, or the first one of a union.
    Members(Vec<Place>),
    /// The whole object, by its type.
    Alone(u32),
}

/// The parts of a type that the first so many items of a list in braces initialise. They stay so while the work goes
/// on.
pub fn places_of(work: &Work, of: u32, count: usize) -> Result<Places, NoMemory>
    requires whole { IsWhole work.now.nodes }
    requires there { of < type_count work.now.nodes }
    ensures { IfOk result (λ x. ArePlaces work.now of count x) }
{
    let base = stripped(work, of);
    match work.nodes.class(base) {
        Class::Array(element, length) => Ok(Places::Elements {
            of: element,
            size: size_of(work, element) as u32,
            count: length,
        }),
        Class::Tagged(tag) => Ok(Places::Members(first_members(work, tag, count)?)),
        _ => Ok(Places::Alone(base)),
    }
}

// An element of an array.
fn element(of: u32, size: u32, k: u32) -> Place
    ensures { result ≡ record { at = k * size; of = of } }
{
    Place {
        at: u64::from(k) * u64::from(size),
        of,
    }
}

impl Places {
    /// The part that an item with this number, counted from 0, initialises; none where there are too many items (133).
    pub fn get(&self, k: u32) -> Option<Place>
        ensures { result ≡ place_at self.now k }
    {
        match self {
            Places::Elements { of, size, count } => {
                if u64::from(k) < *count || *count == 0 {
                    Some(element(*of, *size, k))
                } else {
                    None
                }
            }
            Places::Members(places) => places.get(k as usize).copied(),
            Places::Alone(of) => {
                if k == 0 {
                    Some(Place { at: 0, of: *of })
                } else {
                    None
                }
            }
        }
    }
}
