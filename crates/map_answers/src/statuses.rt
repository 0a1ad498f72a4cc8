//! Status codes of HTTP (RFC 9110, 15; 428: RFC 6585, 3; 507: RFC 4918, 11.5).

ghost use Rattle.std.specs.Prelude.{◌≡◌};

/// How an answer stands to what was asked.
#[derive(Clone, Copy, Debug, PartialEq, Eq)]
pub enum Status {
    /// 200: here it is.
    Success,
    /// 201: it was added.
    Created,
    /// 204: it was done, and there is no more to say.
    NoContent,
    /// 304: it is as the client knows it.
    NotModified,
    /// 400: the request is at fault.
    BadRequest,
    /// 401: who asks has to say who they are, and has not shown it.
    Unauthorized,
    /// 403: who asks may not.
    Forbidden,
    /// 404: there is no such page or feature, or none that this subject may read.
    NotFound,
    /// 405: this method is not served here.
    MethodNotAllowed,
    /// 409: it is there already.
    Conflict,
    /// 410: the kept answer is gone.
    Gone,
    /// 412: the feature is of another version by now.
    PreconditionFailed,
    /// 415: the body is of a type that is not read.
    UnsupportedMedia,
    /// 421: the request is for another host.
    MisdirectedRequest,
    /// 422: the body can be read, and is no feature that can be stored.
    Unprocessable,
    /// 428: the request has to say which version it changes.
    PreconditionRequired,
    /// 500: the session gave a reply that does not answer what it was asked.
    Internal,
    /// 503: not now.
    Unavailable,
    /// 507: there are as many features as there may be.
    InsufficientStorage,
}

impl Status {
    ghost use Rattle.map_answers.specs.Statuses.{number_of, phrase_of};

    /// The number.
    pub fn number(self) -> u16
        ensures { result ≡ number_of self }
    {
        match self {
            Status::Success => 200,
            Status::Created => 201,
            Status::NoContent => 204,
            Status::NotModified => 304,
            Status::BadRequest => 400,
            Status::Unauthorized => 401,
            Status::Forbidden => 403,
            Status::NotFound => 404,
            Status::MethodNotAllowed => 405,
            Status::Conflict => 409,
            Status::Gone => 410,
            Status::PreconditionFailed => 412,
            Status::UnsupportedMedia => 415,
            Status::MisdirectedRequest => 421,
            Status::Unprocessable => 422,
            Status::PreconditionRequired => 428,
            Status::Internal => 500,
            Status::Unavailable => 503,
            Status::InsufficientStorage => 507,
        }
    }

    /// The standard's words for it.
    pub fn phrase(self) -> &'static str
        ensures { result.now ≡ phrase_of self }
    {
        match self {
            Status::Success => "OK",
            Status::Created => "Created",
            Status::NoContent => "No Content",
            Status::NotModified => "Not Modified",
            Status::BadRequest => "Bad Request",
            Status::Unauthorized => "Unauthorized",
            Status::Forbidden => "Forbidden",
            Status::NotFound => "Not Found",
            Status::MethodNotAllowed => "Method Not Allowed",
            Status::Conflict => "Conflict",
            Status::Gone => "Gone",
            Status::PreconditionFailed => "Precondition Failed",
            Status::UnsupportedMedia => "Unsupported Media Type",
            Status::MisdirectedRequest => "Misdirected Request",
            Status::Unprocessable => "Unprocessable Content",
            Status::PreconditionRequired => "Precondition Required",
            Status::Internal => "Internal Server Error",
            Status::Unavailable => "Service Unavailable",
            Status::InsufficientStorage => "Insufficient Storage",
        }
    }
}
