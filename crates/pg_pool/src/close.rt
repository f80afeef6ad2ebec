//! The end of a round.
ghost use Rattle.std.specs.Prelude.{◌≡◌, ◌<◌, All, IfOk, vec_len};
ghost use Rattle.pg_pool.specs.Rounds.{IsIn};
ghost use Rattle.pg_pool.specs.Seats.{AreOfOneRound, is_taken, untaken};

use crate::seat::Seat;
use std::alloc::{AllocError, Global};

/// Whether some seat took a number of the round.
fn is_taken(seats: &[Seat], number: u32) -> bool
    requires { All (λ s. IsIn s.round number) seats.now }
    ensures { result ≡ is_taken seats.now number }
{
    seats.iter().any(|seat| seat.has_taken(number))
}

/// Ends the seats, and gives back the numbers of their round that none of them took, in order.
/// Fails where memory is refused; the seats are ended then too.
pub fn close_round(alloc: Global, seats: Vec<Seat>) -> Result<Vec<u32>, AllocError>
    requires some { 0 < vec_len seats }
    requires one { AreOfOneRound seats.items }
    ensures { IfOk result (λ left. left.items ≡ untaken seats.items) }
{
    let round = seats[0].round();
    let mut left = Vec::new(alloc);
    for number in round.first..round.last {
        if !is_taken(&seats, number) {
            left.push(number)?;
        }
    }
    Ok(left)
}
