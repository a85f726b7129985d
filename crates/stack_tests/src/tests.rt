// What a stack of tiles does, and what the lent places hold afterwards.
use stack::blank::Blank;
use stack::stack::Stack;

// A tile with a letter: a dot on the blank one, a question mark on one that an earlier use left.
#[derive(Clone, Copy, PartialEq, Debug)]
struct Tile {
    letter: u8,
}

impl Blank for Tile {
    ghost empty = { record { letter = 46 } };

    fn blank() -> Tile {
        Tile { letter: b'.' }
    }
}

fn marked(letter: u8) -> Tile {
    Tile { letter }
}

#[test]
fn at_the_limit_taken_and_one_more_refused(rt: HostRuntime) {
    let mut places = [marked(b'?'); 3];
    let mut s = Stack::over(&mut places, 2);
    assert!(rt; s.push(marked(b'a')).is_ok());
    assert!(rt; s.push(marked(b'b')).is_ok());
    assert!(rt; s.push(marked(b'c')).is_err());
    assert_eq!(rt; s.len(), 2);
    assert_eq!(rt; s.get(0), Some(marked(b'a')));
    assert_eq!(rt; s.get(1), Some(marked(b'b')));
    assert_eq!(rt; s.get(2), None);
    assert_eq!(rt; s.top(), Some(marked(b'b')));
    assert_eq!(rt; places, [marked(b'a'), marked(b'b'), marked(b'.')]);
}

#[test]
fn fewer_places_than_the_limit(rt: HostRuntime) {
    let mut places = [marked(b'?'); 1];
    let mut s = Stack::over(&mut places, 5);
    assert_eq!(rt; s.room(), 1);
    assert!(rt; s.push(marked(b'a')).is_ok());
    assert!(rt; s.push(marked(b'b')).is_err());
    assert_eq!(rt; s.len(), 1);
    assert_eq!(rt; places, [marked(b'a')]);
}

#[test]
fn more_places_than_the_limit_are_blank_too(rt: HostRuntime) {
    let mut places = [marked(b'?'); 4];
    let mut s = Stack::over(&mut places, 1);
    assert_eq!(rt; s.room(), 1);
    assert!(rt; s.push(marked(b'a')).is_ok());
    s.blank_all();
    assert_eq!(rt; s.len(), 0);
    assert_eq!(rt; places, [marked(b'.'); 4]);
}

#[test]
fn dirty_places_become_blank(rt: HostRuntime) {
    let mut places = [marked(b'?'); 2];
    let s = Stack::over(&mut places, 2);
    assert_eq!(rt; s.len(), 0);
    assert_eq!(rt; s.get(0), None);
    assert_eq!(rt; places, [marked(b'.'); 2]);
}

#[test]
fn pop_takes_off_and_blanks(rt: HostRuntime) {
    let mut places = [marked(b'?'); 2];
    let mut s = Stack::over(&mut places, 2);
    assert!(rt; s.push(marked(b'a')).is_ok());
    assert!(rt; s.push(marked(b'b')).is_ok());
    assert_eq!(rt; s.pop(), Some(marked(b'b')));
    assert_eq!(rt; s.top(), Some(marked(b'a')));
    assert_eq!(rt; places, [marked(b'a'), marked(b'.')]);
}

#[test]
fn an_empty_stack_has_no_top_and_no_pop(rt: HostRuntime) {
    let mut places = [marked(b'?'); 1];
    let mut s = Stack::over(&mut places, 1);
    assert_eq!(rt; s.top(), None);
    assert_eq!(rt; s.pop(), None);
    assert_eq!(rt; s.len(), 0);
    assert!(rt; s.push(marked(b'a')).is_ok());
    assert_eq!(rt; s.pop(), Some(marked(b'a')));
    assert_eq!(rt; s.pop(), None);
    assert_eq!(rt; places, [marked(b'.')]);
}

#[test]
fn cut_keeps_the_first_items(rt: HostRuntime) {
    let mut places = [marked(b'?'); 3];
    let mut s = Stack::over(&mut places, 3);
    assert!(rt; s.push(marked(b'a')).is_ok());
    assert!(rt; s.push(marked(b'b')).is_ok());
    s.cut(3);
    assert_eq!(rt; s.len(), 2);
    s.cut(2);
    assert_eq!(rt; s.top(), Some(marked(b'b')));
    s.cut(1);
    assert_eq!(rt; s.len(), 1);
    assert_eq!(rt; s.top(), Some(marked(b'a')));
    assert_eq!(rt; places, [marked(b'a'), marked(b'.'), marked(b'.')]);
}

#[test]
fn no_places_at_all(rt: HostRuntime) {
    let mut places = [marked(b'?'); 0];
    let mut s = Stack::over(&mut places, 4);
    assert_eq!(rt; s.room(), 0);
    assert!(rt; s.push(marked(b'a')).is_err());
    assert_eq!(rt; s.pop(), None);
    assert_eq!(rt; s.get(0), None);
    s.blank_all();
    assert_eq!(rt; s.len(), 0);
}

#[test]
fn a_limit_of_none(rt: HostRuntime) {
    let mut places = [marked(b'?'); 2];
    let mut s = Stack::over(&mut places, 0);
    assert_eq!(rt; s.room(), 0);
    assert!(rt; s.push(marked(b'a')).is_err());
    assert_eq!(rt; places, [marked(b'.'); 2]);
}
