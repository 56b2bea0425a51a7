ghost use Rattle.std.specs.Prelude.{◌≡◌, false, IsTrue};
ghost use Rattle.sqlite.specs.Held.{state};
ghost use Rattle.pay_ledger.specs.Steps.{IsOnDisk};

use sqlite::{Alter, Connection};

/// While a connection is open, and in no transaction, every crash leaves just what is there.
pub(crate) fn settled<S: Alter>(conn: &Connection<S>)
    requires { conn.now.in_transaction ≡ false }
    ensures { IsTrue (state S.Store conn.now).is_open → IsOnDisk (state S.Store conn.now) }
{
    let _ = conn.is_autocommit();
}
