//! What holds of every world: each law is a call that does nothing and whose contract is the law.

ghost use Rattle.std.specs.Prelude.{◌≡◌, ◌↔◌, ◌<◌, ◌≤◌, ◌^◌, ℕ, List, length, true, false};
ghost use Rattle.dns_keeper.specs.declared.row.Row.{Row};
ghost use Rattle.dns_ticket_world.specs.declared.step.Step.{Step as Event};
ghost use Rattle.dns_ticket_world.specs.Rows.{are_numbered};
ghost use Rattle.dns_ticket_world.specs.Seats.{has_book, has_ticket, seat_at};
ghost use Rattle.dns_ticket_world.specs.World.{World, started, is_allowed, stepped, after_all};
ghost use Rattle.dns_ticket_world.specs.Facts.{Holds, Begins, is_out, has_this};

/// Every world that the start and steps make keeps the facts.
pub fn worlds()
    ensures start { (seats : ℕ) (rows : List Row) → seats ≤ 1024 → are_numbered 0 rows ≡ true → Holds (started seats rows) }
    ensures step { (w : World) (s : Event) → Holds w → is_allowed w s ≡ true → Holds (stepped w s) }
    ensures steps { (w : World) (steps : List Event) → Holds w → Holds (after_all w steps) }
    // Rows only grow.
    ensures rows { (w : World) (steps : List Event) → Begins w.rows (after_all w steps).rows }
{}

/// What the facts say of single seats and tickets.
pub fn seats_and_tickets()
    // At most one seat has the book, and it is at home exactly where none has.
    ensures alone { (w : World) (i j : ℕ) → Holds w → i < length w.seats → j < length w.seats
        → has_book (seat_at w.seats i).phase ≡ true → has_book (seat_at w.seats j).phase ≡ true → i ≡ j }
    ensures home { (w : World) → Holds w → (w.is_home ≡ true)
        ↔ ((k : ℕ) → k < length w.seats → has_book (seat_at w.seats k).phase ≡ false) }
    // A seat with a ticket has one from the served one up to, but not including, the next, no other seat has that one, and
    // each such ticket is a seat's.
    ensures out { (w : World) (k : ℕ) → Holds w → k < length w.seats
        → has_ticket (seat_at w.seats k).phase ≡ true → is_out w (seat_at w.seats k).ticket ≡ true }
    ensures one { (w : World) (i j : ℕ) → Holds w → i < length w.seats → j < length w.seats → has_ticket (seat_at w.seats i).phase ≡ true
        → has_ticket (seat_at w.seats j).phase ≡ true → (seat_at w.seats i).ticket ≡ (seat_at w.seats j).ticket → i ≡ j }
    ensures each { (w : World) (ticket : ℕ) → Holds w → ticket < 2 ^ 64 → is_out w ticket ≡ true
        → (k : ℕ) × (k < length w.seats) × (has_this ticket (seat_at w.seats k) ≡ true) }
{}
