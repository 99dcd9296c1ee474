// Where what stands among the words of a publication: its number and its counts, the atoms of the user paths, the actions, the sessions.
ghost use Rattle.std.specs.Prelude.{◌≡◌, ◌≤◌, ◌+◌, ◌*◌};
ghost use Rattle.xr_rule.specs.Shows.{buffer_words};
ghost use Rattle.xr_snap.specs.Reading.{action_word, column_word, session_word};

use xr_types::USERS;

/// Where the atoms of the user paths begin.
pub(crate) const ATOMS: usize = 2;

/// Where the actions begin.
pub(crate) const ACTIONS: usize = ATOMS + USERS;

/// How many words an action has: its handle, and its type with the user paths that it declares.
pub(crate) const PER_ACTION: usize = 2;

/// How many words a session has before its columns: its handle, its loss, and which actions' sets it has attached.
const HEAD: usize = 3;

/// How many words a column has.
const PER_COLUMN: usize = 2;

/// How many words the columns of an action have: that of all user paths, and one for each.
const PER_ROW: usize = PER_COLUMN * (1 + USERS);

/// Where the words of an action begin.
pub(crate) fn action_word(place: usize) -> usize
    requires { action_word place ≤ buffer_words }
    ensures { result ≡ action_word place }
{
    ACTIONS + PER_ACTION * place
}

/// Where the sessions begin, behind so many actions.
pub(crate) fn sessions_from(actions: usize) -> usize
    requires { actions ≤ buffer_words }
    ensures { result ≡ 7 + 2 * actions }
{
    ACTIONS + PER_ACTION * actions
}

/// How many words a session has, where there are so many actions.
pub(crate) fn per_session(actions: usize) -> usize
    requires { actions ≤ buffer_words }
    ensures { result ≡ 3 + 12 * actions }
{
    HEAD + PER_ROW * actions
}

/// Where the words of a session begin.
pub(crate) fn session_word(actions: usize, place: usize) -> usize
    requires { session_word actions place ≤ buffer_words }
    ensures { result ≡ session_word actions place }
{
    sessions_from(actions) + per_session(actions) * place
}

/// Where the words of a column of an action begin, in a session.
pub(crate) fn column_word(actions: usize, session: usize, action: usize, column: usize) -> usize
    requires { column_word actions session action column ≤ buffer_words }
    ensures { result ≡ column_word actions session action column }
{
    session_word(actions, session) + HEAD + PER_ROW * action + PER_COLUMN * column
}
