// Parts of a list that stay within it, whatever places they are given.

// The n numbers of a list from one place on; none where it hasn't got them.
pub fn window(list: &[f64], at: usize, n: usize) -> &[f64] {
    list.get(at..).and_then(|rest| rest.get(..n)).unwrap_or(&[])
}

// The first n numbers of a list, or all of it.
pub fn front(list: &mut [f64], n: usize) -> &mut [f64] {
    if n < list.len() {
        return &mut list[..n];
    }
    list
}

// The number at a place becomes x, and what stood there is answered; x where there is no such place.
pub fn exchanged(list: &mut [f64], at: usize, x: f64) -> f64 {
    match list.get_mut(at) {
        Some(place) => std::mem::replace(place, x),
        None => x,
    }
}

// The numbers of a part stand in a list from one place on, where there is room.
pub fn paste(at: usize, part: &[f64], to: &mut [f64]) {
    if part.len() <= to.len() && at <= to.len() - part.len() {
        run_slices::copies::put_at(at, part, to);
    }
}
