// The answers that the parts of the engine give: refused, or accepted with what that comes to; and a reply in numbers.

#![tactic(auto)]

ghost use Rattle.std.specs.Prelude.{◌≡◌, List, ℕ};
ghost use Rattle.roster.specs.declared.Roster.{Roster};
ghost use Rattle.rows.specs.Rows.{Rows};
ghost use Rattle.rules.specs.declared.Reply.TheVariants.{Accepted};
ghost use Rattle.rules.specs.Rules.{taken as taken-by};
ghost use Rattle.rules.specs.Answer.{answer_of};
ghost use Rattle.answers.specs.Reacting.{state_over, done_as, NumbersOf};

use roster::Roster;
use rules::Reply;

// The facts of an accepted event: the server, for a packet, the mark, and how many used records were read. Roster changes and configure
// have zeros.
#[derive(Clone, Copy, Default)]
pub struct Facts {
    pub server: u32,
    pub mark: u8,
    pub reads: usize,
}

impl From<Facts> for Reply {
    ghost from_gives = { λ facts reply. reply ≡ Accepted facts.server facts.mark facts.reads };

    fn from(facts: Facts) -> Reply {
        let Facts {
            server,
            mark,
            reads,
        } = facts;
        Reply::Accepted {
            server,
            mark,
            reads,
        }
    }
}

// What an accepted event comes to: its facts, and whether the ring is drawn anew. The roster is changed where it stands.
#[derive(Clone, Copy)]
pub struct Done {
    pub facts: Facts,
    pub redraw: bool,
}

// An accepted roster change or configure: server, mark and reads are 0.
pub fn taken(redraw: bool) -> Done
    ensures { (t : List ℕ) (rows : Rows) (r : Roster) → done_as result t rows r ≡ taken-by redraw (state_over t rows r) }
{
    Done {
        facts: Facts::default(),
        redraw,
    }
}

// What the engine hands back: the answer, the roster afterwards, and whether the ring is drawn anew.
#[derive(Clone, Copy)]
pub struct Reaction {
    pub reply: Reply,
    pub roster: Roster,
    pub redraw: bool,
}

// A reply in the document's numbers: the refusal (0 where it was accepted), the server, the mark, the number of records read.
// Stays (1): these are the numbers of a session's line, in which 0 says that an event was accepted.
#[derive(Clone, Copy, Default)]
pub struct ReplyNumbers {
    pub refusal: u8,
    pub server: u32,
    pub mark: u8,
    pub reads: usize,
}

// The numbers of a reply, as a line prints them.
impl From<Reply> for ReplyNumbers {
    ghost from_gives = { λ reply numbers. NumbersOf (answer_of reply) numbers };

    fn from(reply: Reply) -> ReplyNumbers {
        match reply {
            Reply::Accepted {
                server,
                mark,
                reads,
            } => ReplyNumbers {
                refusal: 0,
                server,
                mark,
                reads,
            },
            Reply::Refused(refusal) => ReplyNumbers {
                refusal,
                ..Default::default()
            },
        }
    }
}
