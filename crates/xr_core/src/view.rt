// What getters answer from, written as words. It changes nothing of a core.
ghost use Rattle.std.specs.Prelude.{◌≡◌, ◌≤◌, ◌<◌, ◌+◌, ◌*◌, ◌++◌, ◌^◌, true, [], ◌∷◌, length, map, flat_map};
ghost use Rattle.std.specs.List.{list_all};
ghost use Rattle.xr_types.specs.declared.handles.Kind.TheVariants as kind;
ghost use Rattle.xr_types.specs.declared.handles.TheConstants.{SESSIONS};
ghost use Rattle.xr_types.specs.declared.view.TheConstants.{MOST_WORDS};
ghost use Rattle.xr_types.specs.Device.{is_time};
ghost use Rattle.xr_types.specs.Printed.{all_users};
ghost use Rattle.xr_model.specs.machine.Handles.{is_live};
ghost use Rattle.xr_model.specs.machine.Publication.{shown_of, columns_in, atom_of_user, publication_of};
ghost use Rattle.xr_model.specs.machine.PublicationWords.{bits, with_bit, type_number, column_words, words};
ghost use Rattle.xr_core.specs.inside.Viewing.{words_of_row, words_of_action, words_of_columns, loss_word, attached_word, words_of_session, words_listed, counts, contents_words};

use crate::Core;
use crate::parts::Parts;
use crate::sessions::Session;
use crate::slots::COLUMNS;
use xr_sets::Action;
use xr_sync::Columns;
use xr_types::{ActionType, Column, Kind, USERS, User, View, user_place};

/// A number with a bit below it.
fn with_bit(number: u64, bit: bool) -> u64
    requires { number < 2 ^ 63 }
    ensures { result ≡ with_bit number bit }
{
    number * 2 + u64::from(bit)
}

fn type_number(kind: ActionType) -> u64
    ensures value { result ≡ type_number kind }
    ensures few { result < 8 }
{
    match kind {
        ActionType::Boolean => 0,
        ActionType::Float => 1,
        ActionType::Vector => 2,
        ActionType::Pose => 3,
        ActionType::Vibration => 4,
    }
}

/// The two words of a column.
fn push_column(out: &mut View, column: &Column)
    requires room { length out.old + 2 ≤ MOST_WORDS }
    requires time { is_time column.now.time ≡ true }
    ensures { out.new ≡ out.old ++ column_words (shown_of column.now) }
{
    let values = u64::from(column.y.cast_unsigned()) * (1 << 32)
        + u64::from(column.x.cast_unsigned());
    let when = with_bit(
        with_bit(column.time.unsigned_abs(), column.active),
        column.changed,
    );
    out.words.push(values);
    out.words.push(when);
}

/// The words of an action's columns.
#[tactic(auto, using(crate::proofs::Viewed::words_more, crate::proofs::Viewed::one_of))]
fn push_row(out: &mut View, row: &[Column; COLUMNS])
    requires room { length out.old + 12 ≤ MOST_WORDS }
    requires times { list_all (λ c. is_time c.time) row.now ≡ true }
    ensures words { out.new ≡ out.old ++ words_of_row row.now }
    ensures few { length out.new ≤ length out.old + 12 }
{
    for column in row {
        push_column(out, column);
    }
}

/// Which user paths an action declares, as bits.
fn bits(declared: &[bool; USERS]) -> u64
    ensures word { result ≡ bits declared.now }
    ensures few { result < 32 }
{
    let last = with_bit(with_bit(0, declared[4]), declared[3]);
    with_bit(
        with_bit(with_bit(last, declared[2]), declared[1]),
        declared[0],
    )
}

/// The words of an action.
#[tactic(auto, using(crate::proofs::Viewed::two_more))]
fn push_action(out: &mut View, action: &Action)
    requires room { length out.old + 2 ≤ MOST_WORDS }
    ensures words { out.new ≡ out.old ++ words_of_action action.now }
    ensures few { length out.new ≤ length out.old + 2 }
{
    let what = bits(&action.declared()) * 8 + type_number(action.kind());
    out.words.push(action.handle());
    out.words.push(what);
}

/// A session's loss, as bits.
fn loss_word(session: &Session) -> u64
    ensures { result ≡ loss_word session.now.life }
{
    with_bit(with_bit(0, session.is_loss_pending()), session.is_lost())
}

/// For each of these actions whether the session has attached its set, as bits.
#[tactic(auto, using(crate::proofs::Viewed::bit_before, crate::proofs::Viewed::room_below, crate::proofs::Viewed::all_behind))]
fn attached_word(session: &Session, actions: &[Action]) -> u64
    requires few { length actions.now ≤ 64 }
    ensures { result ≡ attached_word session.now.attached actions.now }
{
    let mut word = 0;
    let mut place = actions.len();
    while place > 0 {
        place -= 1;
        word = with_bit(word, session.has_set(actions[place].set()));
    }
    word
}

impl Parts {
    /// The words of an action's columns, where actions show this.
    #[tactic(auto, using(crate::proofs::Viewed::row_in))]
    fn push_columns(&self, out: &mut View, columns: &Columns, action: u64)
        requires room { length out.old + 12 ≤ MOST_WORDS }
        ensures words { out.new ≡ out.old ++ words_of_row (columns_in self.now.handles columns.now action) }
        ensures few { length out.new ≤ length out.old + 12 }
    {
        if let Some(place) = self.handles.place_among(Kind::Action, action) {
            push_row(out, &columns.states().columns[place]);
        }
    }

    /// The words of all actions' columns, where actions show this.
    #[tactic(auto, using(crate::proofs::Viewed::words_more))]
    fn push_rows(&self, out: &mut View, columns: &Columns)
        requires room { length out.old + 12 * 64 ≤ MOST_WORDS }
        ensures words { out.new ≡ out.old ++ flat_map (words_of_columns self.now.handles columns.now) self.now.inputs.actions }
        ensures few { length out.new ≤ length out.old + 12 * 64 }
    {
        for action in self.inputs.actions() {
            self.push_columns(out, columns, action.handle());
        }
    }

    /// The words of a live session.
    #[tactic(auto, using(crate::proofs::Viewed::three_more))]
    fn push_session(&self, out: &mut View, session: &Session)
        requires room { length out.old + 771 ≤ MOST_WORDS }
        requires live { is_live self.now.handles kind.Session session.now.handle ≡ true }
        ensures words { out.new ≡ out.old ++ words_listed self.now session.now }
        ensures few { length out.new ≤ length out.old + 771 }
    {
        out.words.push(session.handle());
        out.words.push(loss_word(session));
        out.words
            .push(attached_word(session, self.inputs.actions()));
        self.push_rows(out, self.own_columns(session.handle()));
    }

    /// The words of these live sessions.
    #[tactic(auto, using(crate::proofs::Viewed::words_more, crate::proofs::Viewed::one_of))]
    fn push_each(&self, out: &mut View, sessions: &[Session])
        requires room { length out.old + 771 * length sessions.now ≤ MOST_WORDS }
        requires live { list_all (λ x. is_live self.now.handles kind.Session x.handle) sessions.now ≡ true }
        ensures { out.new ≡ out.old ++ flat_map (words_listed self.now) sessions.now }
    {
        for session in sessions {
            self.push_session(out, session);
        }
    }

    /// The words of all sessions.
    fn push_sessions(&self, out: &mut View)
        requires room { length out.old + 771 * SESSIONS ≤ MOST_WORDS }
        ensures { out.new ≡ out.old ++ flat_map (words_of_session self.now.handles self.now.inputs.actions) self.now.sessions }
    {
        self.push_each(out, self.sessions.as_slice());
    }

    /// The words of all actions.
    #[tactic(auto, using(crate::proofs::Viewed::words_more))]
    fn push_actions(&self, out: &mut View)
        requires room { length out.old + 2 * 64 ≤ MOST_WORDS }
        ensures words { out.new ≡ out.old ++ flat_map words_of_action self.now.inputs.actions }
        ensures few { length out.new ≤ length out.old + 2 * 64 }
    {
        for action in self.inputs.actions() {
            push_action(out, action);
        }
    }

    /// How many actions there are, and how many sessions, in one word.
    #[tactic(auto, using(crate::proofs::Seated::length_seated))]
    fn push_counts(&self, out: &mut View)
        requires room { length out.old + 1 ≤ MOST_WORDS }
        ensures { out.new ≡ out.old ++ counts self.now ∷ [] }
    {
        let actions = self.inputs.actions().len() as u64;
        let sessions = self.sessions.as_slice().len() as u64;
        out.words.push(actions * (1 << 32) + sessions);
    }

    /// The atom of a user path, where some action declares it.
    fn shown_atom(&self, user: User) -> u64
        ensures { result ≡ atom_of_user self.now.atoms self.now.inputs.actions user }
    {
        if self.inputs.some_declares(user) {
            self.users[user_place(user)]
        } else {
            0
        }
    }

    /// The atoms of the five user paths.
    #[tactic(auto, using(crate::proofs::Viewed::five_more))]
    fn push_atoms(&self, out: &mut View)
        requires room { length out.old + 5 ≤ MOST_WORDS }
        ensures { out.new ≡ out.old ++ map (atom_of_user self.now.atoms self.now.inputs.actions) all_users }
    {
        out.words.push(self.shown_atom(User::Left));
        out.words.push(self.shown_atom(User::Right));
        out.words.push(self.shown_atom(User::Head));
        out.words.push(self.shown_atom(User::Gamepad));
        out.words.push(self.shown_atom(User::Treadmill));
    }

    /// All words but the first.
    pub(crate) fn push_contents(&self, out: &mut View)
        requires room { length out.old ≤ 1 }
        ensures { out.new ≡ out.old ++ contents_words self.now }
    {
        self.push_counts(out);
        self.push_atoms(out);
        self.push_actions(out);
        self.push_sessions(out);
    }
}

impl Core {
    /// Writes what getters answer from, in place of what stood there: words of which threads can answer getters
    /// without this core. OpenXR 1.0 chapter 11, the getters of action states; that there are such words is this project's own.
    #[tactic(auto, using(crate::proofs::Viewed::words_of_core))]
    pub fn view(&self, out: &mut View)
        ensures { out.new ≡ words (publication_of self.now.kept) }
    {
        out.words.clear();
        out.words.push(self.published);
        self.inside.parts.push_contents(out);
    }
}
