//! Tests of nmgc_minor: promotions of small heaps, whose moves and addresses were worked out by hand.
mod heap;
mod shapes;
mod stop;
mod walk;
mod worked;
