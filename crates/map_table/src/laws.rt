// What follows from the definitions, for every list of cookies.

ghost use Rattle.std.specs.Prelude.{◌≡◌, ℕ, ◌+◌, List, ◌++◌, length};
ghost use Rattle.std.specs.List.{AllByRecursion};
ghost use Rattle.map_table.specs.Cookies.{IsCookie, cookies_at, cookies_bytes};
ghost use Rattle.map_table.specs.declared.cookie.Cookie.{Cookie};

/// The bytes of cookies read back as those cookies, whatever stands before and after them.
pub fn cookies_read_back()
    ensures { (cookies : List Cookie) (front rest : List ℕ) → AllByRecursion IsCookie cookies
        → cookies_at (length front) (length cookies) (front ++ (cookies_bytes cookies ++ rest)) ≡ cookies }
{}
