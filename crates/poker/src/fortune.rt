// Fortune, game 1: three cards a hand, an ante with its raise, and Pair Plus on the seat's own cards.

// The posted odds, with the way of grading.
pub mod posted;

// Opening: the conditions of the game.
pub mod opening;

// The return of a hand and the ceiling of a seat.
pub mod settlement;

// The game that the table knows.
pub mod telling;
