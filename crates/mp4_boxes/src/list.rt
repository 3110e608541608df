//! Boxes one after another.

ghost use Rattle.std.specs.Prelude.{◌+◌, ◌<◌, ◌^◌, length};

use crate::front::first_box;

/// A box that lies in bytes which enclose it: its type, the length of its header (8 or 16), its
/// payload, and the place of its first byte.
#[derive(Clone, Copy, Debug)]
pub struct BoxRef<'a> {
    pub kind: [u8; 4],
    pub head: u8,
    pub body: &'a [u8],
    pub at: usize,
    // So that the places of what is inside fit.
    pub ghost fits: { at + head + length body.now < 2 ^ 64 },
}

impl<'a> BoxRef<'a> {
    ghost use Rattle.std.specs.Prelude.{◌≡◌};
    ghost use Rattle.mp4_model.specs.Boxes.{boxes_inside, bad_place_inside};
    ghost use Rattle.mp4_boxes.specs.Views.{placed, boxes_left, bad_left};

    /// The boxes at the front of the payload, with places that go on from this box's place.
    pub fn inside(&self) -> Boxes<'a>
        ensures boxes { boxes_left result ≡ boxes_inside (placed self.now) }
        ensures bad { bad_left result ≡ bad_place_inside (placed self.now) }
    {
        Boxes {
            at: self.at + self.head as usize,
            rest: self.body,
        }
    }
}

/// The boxes from the front of bytes on, as many as keep the rules of their headers.
#[derive(Clone, Copy, Debug)]
pub struct Boxes<'a> {
    at: usize,
    rest: &'a [u8],
    // So that the places fit.
    pub ghost fits: { at + length rest.now < 2 ^ 64 },
}

impl<'a> Boxes<'a> {
    ghost use Rattle.std.specs.Prelude.{◌≡◌, option_map};
    ghost use Rattle.mp4_model.specs.Boxes.{front_boxes, bad_place, first_of};
    ghost use Rattle.mp4_boxes.specs.Views.{placed, boxes_left, bad_left, IsSplit};

    /// The boxes at the front of bytes whose first byte has the place `at`.
    pub fn new(bytes: &'a [u8], at: usize) -> Self
        requires { at + length bytes.now < 2 ^ 64 }
        ensures boxes { boxes_left result ≡ front_boxes at bytes.now }
        ensures bad { bad_left result ≡ bad_place at bytes.now }
    {
        Boxes { at, rest: bytes }
    }

    /// The place of the first header that breaks the rules, if these boxes stop short of the end.
    pub fn bad_place(&self) -> Option<usize>
        ensures { result ≡ bad_left self.now }
    {
        let mut boxes = *self;
        while boxes.split_first().is_some() {}
        if boxes.rest.is_empty() {
            None
        } else {
            Some(boxes.at)
        }
    }

    /// The first box of a type.
    pub fn first_of(&self, kind: &[u8; 4]) -> Option<BoxRef<'a>>
        ensures { option_map placed result ≡ first_of kind.now (boxes_left self.now) }
    {
        let mut boxes = *self;
        boxes.find(|b| b.kind == *kind)
    }

    // Takes the first box, which is there unless the bytes end or its header breaks the rules.
    fn split_first(&mut self) -> Option<BoxRef<'a>>
        ensures { IsSplit self.old result self.new }
    {
        let (first, rest) = first_box(self.rest, self.at)?;
        self.at += self.rest.len() - rest.len();
        self.rest = rest;
        Some(first)
    }
}

impl<'a> Iterator for Boxes<'a> {
    ghost use Rattle.std.specs.Iterator.{YieldsFirstBy, item_count};
    ghost use Rattle.mp4_boxes.specs.Views.{placed, boxes_left};

    type Item = BoxRef<'a>;

    ghost next_gives = { YieldsFirstBy placed boxes_left };

    ghost remaining = { item_count boxes_left };

    fn next(&mut self) -> Option<BoxRef<'a>> {
        self.split_first()
    }
}
