//! Lists of numbers, each with what stands beside it, of which the plain machines are made.
//!
//! A list for which there is no memory is emptied. What the machine answers is another text then
//! than what it is compared with, so no call has to say that memory ran out.

/// Adds to the end of a list.
pub fn add<T: Copy>(list: &mut Vec<T>, last: T) {
    if list.push(last).is_err() {
        list.clear();
    }
}

/// What stands beside the number, where it comes first.
pub fn beside<T: Copy>(pairs: &[(usize, T)], number: usize) -> Option<T> {
    for (first, second) in pairs {
        if *first == number {
            return Some(*second);
        }
    }
    None
}

/// Takes out the first pair of the number, and answers what stood beside it.
pub fn take<T: Copy>(pairs: &mut Vec<(usize, T)>, number: usize) -> Option<T> {
    for index in 0..pairs.len() {
        if let Some((first, second)) = pairs.get(index).copied()
            && first == number
        {
            pairs.remove(index);
            return Some(second);
        }
    }
    None
}

/// Puts this beside the number, in place of what stood beside it where it came first.
pub fn put<T: Copy>(pairs: &mut Vec<(usize, T)>, number: usize, second: T) {
    take(pairs, number);
    add(pairs, (number, second));
}
