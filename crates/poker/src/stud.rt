// Stud, game 2: five cards a hand, an ante and a raise of twice the ante that pays by the hand's class.

// The posted cap.
pub mod posted;

// Opening: the conditions of the game.
pub mod opening;

// The return of a hand and the ceiling of a seat.
pub mod settlement;

// The game that the table knows.
pub mod telling;
