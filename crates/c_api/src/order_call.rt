// The least y of a block order, and the best order, for C.

ghost use Rattle.std.specs.Prelude.{◌≡◌};
ghost use Rattle.c_api.specs.OrderExports.{least_of_bytes, best_of_bytes};

use crate::list::{MOST_ENTRIES, decode};
use orders::calls::{best_order, least_y};

#[unsafe(no_mangle)]
pub extern "C" fn mover_least_y(
    n: u32,
    m: u32,
    list: &[u8],
    order: &[u8],
    y: &mut u32,
    page: &mut u32,
) -> u32
    ensures { record { number = result; y = y.new; page = page.new }
        ≡ least_of_bytes n m list.now order.now }
{
    let mut entries = [0u16; MOST_ENTRIES];
    let count = decode(list, &mut entries);
    match least_y(n as usize, m as usize, &entries[..count], order) {
        Ok(told) => {
            *y = told.y as u32;
            *page = told.page as u32;
            0
        }
        Err(refusal) => {
            *y = 0;
            *page = 0;
            refusal.number()
        }
    }
}

#[unsafe(no_mangle)]
pub extern "C" fn mover_best_order(
    n: u32,
    m: u32,
    list: &[u8],
    order: &mut [u8],
    y: &mut u32,
    page: &mut u32,
) -> u32
    ensures { record { number = result; order = order.new; y = y.new; page = page.new }
        ≡ best_of_bytes n m list.now order.old }
{
    let mut entries = [0u16; MOST_ENTRIES];
    let count = decode(list, &mut entries);
    match best_order(n as usize, m as usize, &entries[..count], order) {
        Ok(best) => {
            *y = best.y as u32;
            *page = best.page as u32;
            0
        }
        Err(refusal) => {
            *y = 0;
            *page = 0;
            refusal.number()
        }
    }
}
