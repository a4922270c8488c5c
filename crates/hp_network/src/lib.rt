//! Ranks that run apart from each other and send each other messages: what each does next, the queues between them, the
//! order of their turns, and the laws of every order.
#![tactic(auto)]
