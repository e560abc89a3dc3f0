//! Whether a picture shows what a packet tells.
ghost use Rattle.std.specs.Prelude.{◌≡◌, ◌↔◌, IsTrue};
ghost use Rattle.charlotte_packets.specs.Packets.{what_picture};

use crate::same::{are_same_bytes, are_same_values, is_same_end};
use charlotte_packets::{PictureWhat, What};

/// Whether a picture shows what a packet tells.
pub fn is_told(what: &What, shown: &PictureWhat) -> bool
    ensures { IsTrue result ↔ (what_picture what.now ≡ shown.now) }
{
    match (what, shown) {
        (
            What::Want { to, w, at, hops },
            PictureWhat::Want {
                to: t,
                w: v,
                at: k,
                hops: h,
            },
        ) => { is_same_end(*to, *t) && *w == *v && *at == *k && *hops == *h }
        (
            What::Unwant { to, w, at, hops },
            PictureWhat::Unwant {
                to: t,
                w: v,
                at: k,
                hops: h,
            },
        ) => { is_same_end(*to, *t) && *w == *v && *at == *k && *hops == *h }
        (
            What::Unwanted { to, w, at, hops },
            PictureWhat::Unwanted {
                to: t,
                w: v,
                at: k,
                hops: h,
            },
        ) => is_same_end(*to, *t) && *w == *v && *at == *k && *hops == *h,
        (
            What::Taken { to, n, at, hops },
            PictureWhat::Taken {
                to: t,
                n: m,
                at: k,
                hops: h,
            },
        ) => { is_same_end(*to, *t) && *n == *m && *at == *k && *hops == *h }
        (
            What::Parcel {
                to,
                n,
                w,
                at,
                hops,
                bytes,
                moving,
            },
            PictureWhat::Parcel {
                to: t,
                n: m,
                w: v,
                at: k,
                hops: h,
                bytes: shown_bytes,
                moving: values,
            },
        ) => {
            is_same_end(*to, *t)
                && *n == *m
                && *w == *v
                && *at == *k
                && *hops == *h
                && are_same_bytes(bytes, shown_bytes)
                && are_same_values(moving.values(), values)
        }
        (
            What::Back { to, n, moving },
            PictureWhat::Back {
                to: t,
                n: m,
                moving: values,
            },
        ) => { is_same_end(*to, *t) && *n == *m && are_same_values(moving.values(), values) }
        (What::Gone { to, at }, PictureWhat::Gone { to: t, at: k }) => {
            is_same_end(*to, *t) && *at == *k
        }
        (
            What::Moved { to, at, hops },
            PictureWhat::Moved {
                to: t,
                at: k,
                hops: h,
            },
        ) => { is_same_end(*to, *t) && *at == *k && *hops == *h }
        (What::Known { to, hops }, PictureWhat::Known { to: t, hops: h }) => {
            is_same_end(*to, *t) && *hops == *h
        }
        (What::Forget { to, hops }, PictureWhat::Forget { to: t, hops: h }) => {
            is_same_end(*to, *t) && *hops == *h
        }
        (What::GoneSeen { to }, PictureWhat::GoneSeen { to: t }) => is_same_end(*to, *t),
        (_, _) => false,
    }
}
