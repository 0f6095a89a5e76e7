//! What a turn keeps of an arriving train, by the types of its units, and what goes of it.

ghost use Rattle.std.specs.Prelude.{◌≡◌, ◌≤◌, length, IfSome, IsTrue};
ghost use Rattle.rules.specs.Turns.{may_stay, staying, beyond, fits_at, greatest, kept_length};

use crate::records::End;
use rail_base::TypeNo;

/// How many units a turn keeps, by the types of the arriving list after a reversal and of the departing list: the
/// length of the longest list of types that is left of the arriving list after none or more were uncoupled at the
/// uncoupling end, and that becomes the departing list when none or more are coupled at the coupling end. Nothing
/// where no list of one type or more is so.
#[tactic(auto, unfolding(crate::specs::Turns::kept_length))]
pub fn kept_length(
    uncouple: End,
    couple: End,
    arriving: &[TypeNo],
    departing: &[TypeNo],
) -> Option<usize>
    ensures number { result ≡ kept_length uncouple couple arriving.now departing.now }
    ensures arriving { IfSome result (λ n. n ≤ length arriving.now) }
    ensures departing { IfSome result (λ n. n ≤ length departing.now) }
{
    let mut stay = arriving.len();
    while stay > 0 {
        if fits_at(uncouple, couple, arriving, departing, stay) {
            return Some(stay);
        }
        stay -= 1;
    }
    None
}

/// Whether a list of so many types fits a turn.
fn fits_at(
    uncouple: End,
    couple: End,
    arriving: &[TypeNo],
    departing: &[TypeNo],
    stay: usize,
) -> bool
    ensures { result ≡ fits_at uncouple couple arriving.now departing.now stay }
{
    if !may_stay(uncouple, arriving.len(), stay) {
        return false;
    }
    if !may_stay(couple, departing.len(), stay) {
        return false;
    }
    staying(uncouple, arriving, stay) == staying(couple, departing, stay)
}

/// Whether so many may stay of so many when units go at this end.
fn may_stay(end: End, whole: usize, stay: usize) -> bool
    ensures number { result ≡ may_stay end whole stay }
    ensures within { IsTrue result → stay ≤ whole }
{
    match end {
        End::None => stay == whole,
        End::Front | End::Rear => stay <= whole,
    }
}

/// What stays of a list when all but so many go at this end: at most all of it.
pub fn staying<T>(end: End, whole: &[T], stay: usize) -> &[T]
    requires { stay ≤ length whole.now }
    ensures { result.now ≡ staying end whole.now stay }
{
    match end {
        End::None => whole,
        End::Rear => &whole[..stay],
        End::Front => &whole[whole.len() - stay..],
    }
}

/// What goes of a list at this end when so many stay, which are at most all of it.
pub fn beyond<T>(end: End, whole: &[T], stay: usize) -> &[T]
    requires { stay ≤ length whole.now }
    ensures units { result.now ≡ beyond end whole.now stay }
    ensures few { length result.now ≤ length whole.now }
{
    match end {
        End::None => &[],
        End::Rear => &whole[stay..],
        End::Front => &whole[..whole.len() - stay],
    }
}
