//! The texts of help. clap does not wrap them, so no line is longer than 80 columns.

pub(crate) const ABOUT: &str = "A map feature server for land agencies";

pub(crate) const LONG_ABOUT: &str =
    "A map feature server for land agencies. Offices search map features by a window
and change them by lists; policies rule what each office may read and change.";

pub(crate) const EXAMPLES: &str = "Examples:
  landmap script day.map
  landmap script --config agency.json day.map
  landmap serve --socket map.sock
  landmap connect --socket map.sock
  landmap check --config agency.json

`landmap script --help` has the lines of a script, and the codes by which a run
ends; `landmap serve --help` has the options of a server, and its codes;
`landmap connect --help` tells how to talk to a server. `landmap check` looks at
a configuration alone; `landmap draw` makes a picture of a script; `landmap
export` and `landmap import` bring features out of a server into a file, and
back; `landmap secret` makes a secret by which a subject says who it is;
`landmap man` and `landmap completions` print the manual page, and what a shell
needs to complete command lines.

Exit status:
  0  what was asked is done
  1  a file cannot be read, the configuration is faulty, the socket cannot be
     bound or connected, or the run or the talk broke off; one line on standard
     error says which
  2  the command line is wrong";

pub(crate) const SCRIPT_ABOUT: &str = "Runs the session lines of a file, and writes the replies";

pub(crate) const SCRIPT_LONG_ABOUT: &str =
    "Runs the session lines of a file, and writes the replies to standard output.

A line is `label: command`. A label stands for one session, which begins with
HELLO and the name of a subject. Empty lines, and lines that begin with #, are
skipped. FILE may be `-`, standard input: each line is then answered at once, a
terminal's too. The commands are

  HELLO name, SEARCH shape, ADD id class shape, RESHAPE id version shape,
  DELETE id version, COMMIT, ABORT, EXPLAIN action office class shape, BYE;
  POLICY json and ROLL of a steward; OPEN shape, STEP n and FINISH of a search
  that goes step by step

A configuration gives the subjects, and the policies that are in force until a
steward replaces them. Without one the subjects are north, south and chief, who
is the steward, and everything is permitted.

docs/SESSIONS.md tells what each reply and each `error CODE` means.";

pub(crate) const SCRIPT_EXAMPLES: &str = r#"Examples:
  A file first.map of these lines

    n: HELLO north
    n: ADD 1 mast POINT (3 4)
    n: COMMIT
    n: SEARCH POINT (3 4)

  is run by `landmap script first.map`, which writes

    n: hello north
    n: staged
    n: applied 1
    n: rows 1
    n: 1 1 north mast POINT (3 4)

  `landmap script --config agency.json first.map` writes the same, where the
  file agency.json has one subject, who may do everything:

    {"subjects": [{"name": "north", "office": "north", "role": "editor"}],
     "policies": {"root": {"policy": "start", "combine": "first-applicable",
                           "rules": [{"rule": "open", "effect": "permit"}]}}}

Exit status:
  0  all lines are answered, even where a reply is `error`
  1  one line on standard error says why: `landmap: cannot read FILE`,
     `landmap: cannot write`, or `landmap: CODE`, where CODE is

       B1        the configuration is no JSON
       B2        it lacks a value, has a wrong one, or has a further key
       N1        it has no subject
       N2        it has more than 64 subjects
       N3        it has two subjects of one name
       D2 to D8  its policies are at fault: a value is missing or wrong (D2),
                 a further key (D3), a name twice (D4), no such zone (D5),
                 a zone's shape (D6), too deep (D7), too many parts (D8)
       V1        a read of the script failed
       V3        the script did not end in 16,777,216 reads
       B5        there was no memory for the configuration
       X12       there was no memory for the world
       V4        there was no memory for the buffers or the command line
       Q1 to Q4  the store is in use (Q1), cannot be read or written (Q2), is
                 damaged (Q3), or has no number for a record (Q4)

  2  the command line is wrong"#;

pub(crate) const STORE_HELP: &str = "Keeps all in this folder, and begins with its state";

pub(crate) const FEATURES_HELP: &str = "The most features, 1 to 4000000 [default: 100000]";

pub(crate) const SCRIPT_FILE_HELP: &str = "The script: lines `label: command`; `-`: standard input";

pub(crate) const CONFIG_HELP: &str = "The subjects and the first policies, as JSON";

pub(crate) const SERVE_ABOUT: &str = "Serves sessions over a Unix socket";

pub(crate) const SERVE_LONG_ABOUT: &str = "Serves sessions over a Unix socket.

The socket is bound at PATH, and `listening PATH` is printed. A client that
connects has a session: it sends a script's lines without their labels, but for
OPEN, STEP and FINISH. So many clients are served at a time as there are
workers; others wait. All work on one world, opened by the configuration as for
a script.

It goes on until the process is killed, or the accepting ends: after N
connections with --connections, at the end of standard input with
--until-stdin-ends. Sessions that have begun then go on to their end. Once the
last one has ended, the socket's file is removed and `closed R records` is
printed, R being the number of records in the audit trail. Without --store
nothing is stored: then, or when the process is killed, features, policies and
records are gone.

Without --connections the records are settled from time to time, after 262,144
of them or 256 MiB of replies: those in memory are compared with what the
sessions were told, and let go. Without --store those are gone then that no ROLL
has taken out. All clients wait meanwhile, a second or so, and their sessions go
on.

With --store features, policy and records are kept in the folder DIR, which has
to be there. The first start begins it with the configuration's policies; later
ones begin with the features and the policy that it keeps. No reply leaves
before the records on which it rests are on the disk. With --wait changes a
reply waits for the changes of features and policies alone, so records of the
last answers may be lost in a crash. A store is for one server at a time.

With --idle, a client that neither sends nor reads for so many seconds is left,
and its worker serves another. Without it a silent client keeps its worker.

--takeover removes a socket's file at PATH that nobody listens on, as a server
that was killed leaves one. Whatever else is there stays, and the socket cannot
be bound. To find out whether somebody listens it connects, which uses up one
connection of a server that does.

A client is whoever its HELLO says; where the configuration has keys, HELLO says
a secret too. Who may connect is up to the rights of the socket's folder.

With --http ADDRESS:PORT, as 127.0.0.1:8080 or [::1]:8080, or --http-socket PATH
HTTP is answered as well, so that GIS programs and browsers read the features as
OGC API - Features. docs/HTTP.md tells what is answered, and what has to be in
the configuration for it.

docs/SESSIONS.md tells what each reply and each `error CODE` means.";

pub(crate) const SOCKET_HELP: &str = "Where the Unix socket is bound";

pub(crate) const CONNECTIONS_HELP: &str = "Ends after so many connections, 1 to 1024";

pub(crate) const WORKERS_HELP: &str = "How many clients at a time, 1 to 1024 [default: 4]";

pub(crate) const IDLE_HELP: &str = "How long a client may be idle, 1 to 86400";

pub(crate) const TAKEOVER_HELP: &str = "Takes over a socket that nobody listens on";

pub(crate) const UNTIL_STDIN_ENDS_HELP: &str = "Accepts nobody once standard input ends";

pub(crate) const WAIT_HELP: &str = "What replies wait for: all, changes [default: all]";

pub(crate) const HTTP_HELP: &str = "Also answers HTTP at this address of the machine";

pub(crate) const HTTP_SOCKET_HELP: &str = "Also answers HTTP on this socket, for a proxy";

pub(crate) const HTTP_WORKERS_HELP: &str = "How many of HTTP at a time, 1 to 1023 [default: 8]";

pub(crate) const SERVE_EXAMPLES: &str = r#"Examples:
  `landmap serve --socket map.sock` writes

    listening map.sock

  and serves four sessions at a time, until it is killed. For example, the
  lines

    HELLO north
    SEARCH POINT (3 4)
    BYE

  that a client sends to map.sock are answered

    hello north
    rows 0
    bye

  landmap serve --socket map.sock --config agency.json
    has the subjects and the policies of the file agency.json

  landmap serve --socket map.sock --workers 16 --idle 60
    serves sixteen clients at a time, and leaves one that is idle for a minute

  landmap serve --socket map.sock --store /var/lib/landmap
    keeps all in that folder, and goes on there when it is started again

  landmap serve --socket map.sock --config map.json --http 127.0.0.1:8080
    answers HTTP, too, as at http://127.0.0.1:8080/collections

  landmap serve --socket map.sock --connections 100
    serves a hundred sessions, and ends

Exit status:
  0  all sessions have ended, and their records are those of the trail
  1  one line on standard error says why: `landmap: cannot read FILE`,
     `landmap: cannot bind PATH`, `landmap: cannot start a worker`,
     `landmap: cannot write`, `error: ..` where HTTP cannot begin as it is
     wanted, or `landmap: CODE`, where CODE is

       B1, B2, N1 to N3, D2 to D8
                 the configuration is at fault: `landmap script --help` has how
       B5        there was no memory for the configuration
       X12       there was no memory for the world
       H6        there was no memory to serve it
       V4        there was no memory for the buffers or the command line
       C1        a session was told of another record than the trail has
       C2        a session did not give back its seat
       Q1 to Q4  the store is in use (Q1), cannot be read or written (Q2), is
                 damaged (Q3), or has no number for a record (Q4)

  2  the command line is wrong"#;

pub(crate) const CONNECT_ABOUT: &str = "Talks to a server: lines go to it, its replies come back";

pub(crate) const CONNECT_LONG_ABOUT: &str =
    "Talks to a server: lines go to it, its replies come back.

Connects to the Unix socket at PATH, which is one session of its server. Each
line of standard input is sent, and its whole reply written to standard output,
before the next line is read. A reply is one line, and behind `rows N` and
`rolled N` come N lines more. A last line without a line feed is sent with one.

The lines are those of a script without their labels, but for OPEN, STEP and
FINISH: HELLO, SEARCH, ADD, RESHAPE, DELETE, COMMIT, ABORT, EXPLAIN, BYE, and
of a steward POLICY and ROLL. At a terminal, `> ` on standard error asks for the
next line. The talk ends with the input, or behind the reply `bye`.

docs/SESSIONS.md tells what each reply and each `error CODE` means.";

pub(crate) const CONNECT_SOCKET_HELP: &str = "Where the server's Unix socket is bound";

pub(crate) const CONNECT_EXAMPLES: &str = r#"Examples:
  The lines

    HELLO north
    SEARCH POINT (3 4)
    BYE

  in a file lines.txt, sent by `landmap connect --socket map.sock < lines.txt`
  while a server listens at map.sock, are answered

    hello north
    rows 0
    bye

Exit status:
  0  the input has ended, or the server has said `bye`, even where a reply is
     `error`
  1  one line on standard error says why: `landmap: cannot connect PATH`,
     `landmap: the server is gone`, `landmap: cannot write`, or
     `landmap: CODE`, where CODE is

       V1        a read of standard input failed
       V4        there was no memory for a line, a buffer or the command line

  2  the command line is wrong"#;

pub(crate) const CHECK_ABOUT: &str = "Tells whether a configuration is right, and where it is not";

pub(crate) const CHECK_LONG_ABOUT: &str =
    r#"Tells whether a configuration is right, and where it is not.

Of one that is right it writes how many subjects, stewards, zones and rules it
has. Of one that is not it writes the code of its first fault and its place, a
JSON pointer: "/policies/root/rules/2", "" being the whole. Of the shape of a
zone it writes also the byte within its text, counted from 0.

docs/POLICIES.md tells how policies are written; crates/configuration/README.md,
how subjects are, with the meaning of each code."#;

pub(crate) const CHECK_CONFIG_HELP: &str = "The configuration, as JSON";

pub(crate) const CHECK_EXAMPLES: &str = r#"Examples:
  `landmap check --config agency.json` writes, of a right configuration,

    subjects 5
    stewards 1
    zones 1
    rules that permit 2
    rules that deny 1

  and of one whose first subject has no name

    B2 at "/subjects/0/name"

Exit status:
  0  the configuration is right
  1  it is not, or one line on standard error says why nothing was found out:
     `landmap: cannot read FILE`, `landmap: cannot write`, or `landmap: CODE`,
     where CODE is that of the fault (`landmap script --help` has their list),
     or

       V4        there was no memory for the buffers or the command line

  2  the command line is wrong"#;

pub(crate) const DRAW_ABOUT: &str = "Draws what a script and its replies show, as SVG";

pub(crate) const DRAW_LONG_ABOUT: &str = "Draws what a script and its replies show, as SVG.

The replies are read from standard input. The windows of searches are drawn as
dashed outlines, the features that were listed in the colours of their classes.";

pub(crate) const DRAW_SCRIPT_HELP: &str = "The script whose replies are drawn";

pub(crate) const DRAW_EXAMPLES: &str = "Examples:
  landmap script day.map | landmap draw day.map > day.svg

Exit status:
  0  it is drawn
  1  one line on standard error says why not: `landmap: cannot read FILE`,
     `landmap: cannot write`, or `landmap: CODE`, where CODE is

       V1        a read of the script or of the replies failed
       V3        one of them did not end in 16,777,216 reads
       V4        there was no memory
       G1        there are more than 100,000 windows and features

  2  the command line is wrong";

pub(crate) const EXPORT_ABOUT: &str = "Writes the features of a server, as GeoJSON or CSV";

pub(crate) const EXPORT_LONG_ABOUT: &str = r#"Writes the features of a server, as GeoJSON or CSV.

Connects to the Unix socket at PATH, says HELLO as NAME, and makes one search:
of SHAPE, or of everything. So what is written is what NAME may read, all of one
moment, and the trail has one record of it. Each feature is written to standard
output as it comes.

The forms are

  geojson      a FeatureCollection (RFC 7946)
  geojsonseq   a feature on each line
  csv          the columns id, version, office, class and WKT, the shape, as
               `ogr2ogr` reads them

A feature has the properties id, office, class and version. Coordinates are
those of the configuration's grid; without one they are whole numbers. SHAPE is
well-known text with such coordinates."#;

pub(crate) const AS_HELP: &str = "The subject whose session it is";

pub(crate) const WINDOW_HELP: &str = "The shape that the features meet [default: everything]";

pub(crate) const EXPORT_CLASS_HELP: &str = "Writes the features of this class only";

pub(crate) const GRID_HELP: &str = "A configuration, for its grid";

pub(crate) const FORMAT_HELP: &str = "The form: geojson, geojsonseq or csv";

pub(crate) const EXPORT_EXAMPLES: &str = r#"Examples:
  landmap export --socket map.sock --as north --format geojson > all.geojson
  landmap export --socket map.sock --as north --class mast --format csv \
      --window 'POLYGON ((0 0, 50 0, 50 50, 0 50, 0 0))' > masts.csv
  ogr2ogr -f GPKG all.gpkg all.geojson
    makes a GeoPackage of it

Exit status:
  0  all features are written
  1  one line on standard error says why not: `landmap: cannot read FILE`,
     `landmap: cannot connect PATH`, `landmap: the server answers REPLY`,
     `landmap: the server has ended the connection` or another line that begins
     so, `landmap: no name NAME`, `landmap: out of memory`,
     `landmap: LANDMAP_SECRET is no secret, or cannot be read`,
     `landmap: cannot write`, or `landmap: CODE`, where CODE is

       B1, B2, N1 to N3, D2 to D8, B5
                 the configuration is at fault: `landmap script --help` has how
       K1 to K3, L4, M1 to M3, P1 to P9
                 SHAPE is at fault: `landmap import --help` has how
       V4        there was no memory for a buffer or the command line

     What is written then is not whole: a FeatureCollection has no end
  2  the command line is wrong"#;

pub(crate) const IMPORT_ABOUT: &str = "Adds the features of a file to a server";

pub(crate) const IMPORT_LONG_ABOUT: &str = r#"Adds the features of a file to a server.

FILE is GeoJSON, a FeatureCollection (RFC 7946) or a sequence of features (RFC
8142, or one on each line); or CSV as `ogr2ogr -f CSV -lco GEOMETRY=AS_WKT`
writes it, with a column WKT. Rows are its features, counted from 1.

A feature has an id, a whole number, as a member or a property, and the property
class; in CSV these are columns. With --class all are of that class; with
--first-id the first row has the id N, the next one N + 1, and so on.
Coordinates are those of the configuration's grid; without one they are whole
numbers.

Rows go to the server by lists of 16, as NAME. A row that is no feature, or that
the server refuses, is written to FILE.refused.csv, with its code or the
server's reply; the others go on. With --whole the import ends there. How many
rows are settled is kept in FILE.done: the same command goes on from there after
it was cut off. What the server has already, just as it is in the file, counts
as done.

A shape is a point, a segment or a convex ring of at most 16 corners. With
--split lines are cut into segments, and regions, with their holes, into convex
parts; of the row with the id I, the parts have the ids 1000 * I, 1000 * I + 1,
and so on.

With --script session lines are written to standard output in place of being
sent, for `landmap script`."#;

pub(crate) const IMPORT_CLASS_HELP: &str = "The class of all features";

pub(crate) const FIRST_ID_HELP: &str = "The id of the first row, 1 to 4294967295";

pub(crate) const WHOLE_HELP: &str = "Ends where a row is refused";

pub(crate) const SPLIT_HELP: &str = "Cuts lines into segments, regions into convex parts";

pub(crate) const IMPORT_SCRIPT_HELP: &str = "Writes session lines, and sends nothing";

pub(crate) const IMPORT_FILE_HELP: &str = "The features: GeoJSON, a sequence of it, or CSV";

pub(crate) const IMPORT_EXAMPLES: &str = r#"Examples:
  landmap import --socket map.sock --as north --class mast masts.geojson
  ogr2ogr -f GeoJSONSeq -t_srs EPSG:4326 roads.geojsons roads.gpkg
  landmap import --socket map.sock --as north --class road --first-id 1000 \
      --split --config agency.json roads.geojsons
  landmap import --script --as north --class mast masts.geojson > masts.map

Exit status:
  0  all rows are settled: `rows R`, `applied A`, `present P` and `refused F`
     say how
  1  one line on standard error says why not: `landmap: cannot read FILE`,
     `landmap: cannot keep FILE.done` (or FILE.refused.csv),
     `landmap: cannot connect PATH`, `landmap: the server answers REPLY`,
     `landmap: the server has ended the connection` or another line that begins
     so, `landmap: a row is refused, see FILE.refused.csv` (with --whole),
     `landmap: no name NAME`, `landmap: out of memory`,
     `landmap: LANDMAP_SECRET is no secret, or cannot be read`,
     `landmap: cannot write`, `landmap: CODE` of the configuration, as
     `landmap script --help` has it, or `landmap: CODE behind row R`, where CODE is

       F1        the file is neither GeoJSON nor CSV with a column WKT
       F2        it ends within a feature or a collection
       F3        a feature has more than 4,194,304 bytes
       V1        a read of the file failed
       V4        there was no memory for a row

     The codes in FILE.refused.csv, beside those of the server's replies, are

       J1 to J3  it is no JSON, has not the form of a feature, has another type
       K1 to K3  its well-known text begins with another word, is of a kind that
                 is not read, has something missing or too much
       M1 to M3  a number is none, between two steps of the grid, beyond it
       I1, I2    it has no id, or --split makes one of more than 64 bits; it has
                 no class
       L1 to L3  a region crosses itself, has a hole outside, has too many parts
       L4        several parts or holes, or a line of more than two points:
                 --split cuts them
       P1 to P9  the points make no shape

  2  the command line is wrong"#;

pub(crate) const STORE_ABOUT: &str = "Looks at the folder of a store";

pub(crate) const STORE_LONG_ABOUT: &str = "Looks at the folder of a store, which no server has open.

ACTION is

  check    reads all of it: each volume, its tables, and that no record is
           missing; `right: V volumes, R records` is printed
  list     tells what each volume has
  export   writes the records, one on each line, as ROLL does; with --features
           the features, as `id,version,office,class,shape`

The files are SQLite's: sqlite3, ogrinfo and QGIS read those of a server that
has ended. Nothing but landmap should write them.";

pub(crate) const STORE_ACTION_HELP: &str = "What is done: check, list or export";

pub(crate) const STORE_FOLDER_HELP: &str = "The folder of the store";

pub(crate) const STORE_FEATURES_HELP: &str = "Exports features in place of records";

pub(crate) const STORE_EXAMPLES: &str = "Examples:
  landmap store check /var/lib/landmap
  landmap store export /var/lib/landmap > records.jsonl
  landmap store export --features /var/lib/landmap > features.csv

Exit status:
  0  it is done; for `check`, the store is right
  1  one line on standard error says why not: `landmap: Q1 DIR: ..` (in use),
     `landmap: Q2 FILE: ..` (cannot be read), `landmap: Q3 FILE: ..` (damaged),
     `landmap: cannot write`, or `landmap: V4` (no memory)
  2  the command line is wrong";

pub(crate) const SECRET_ABOUT: &str = "Makes a secret by which a subject says who it is";

pub(crate) const SECRET_LONG_ABOUT: &str =
    r#"Makes a secret by which a subject says who it is, in a session and by HTTP.

It is drawn from the randomness of the machine, and two lines are printed: the
secret, 43 letters, digits, `-` and `_`; and the entry for the configuration,
which goes into the list `"keys"`. The entry has only the digest (SHA-256) of
the secret, which nobody can turn back. The secret is shown this once and stored
nowhere: hand the first line over. Keep it in a file that its owner alone may
read, and out of histories.

NAME is one of the subjects of the configuration. A secret is replaced by adding
a second key of the subject, and taken back by removing its key; the server
reads its configuration when it starts.

docs/OPERATING.md has more, "Secrets"."#;

pub(crate) const SECRET_NAME_HELP: &str = "The name of the subject";

pub(crate) const SECRET_EXAMPLES: &str = r#"Examples:
  `landmap secret ines` writes, with other letters and digits,

    mWFgNr6gYm5Z1qkvY5Wq0n3wA7ZrV6cR8tXb2LdE_hk
    {"subject": "ines", "sha256": "8b1d..."}

Exit status:
  0  both lines are written
  1  one line on standard error says why not: `landmap: no randomness`,
     `landmap: cannot write`, or `landmap: V4` where there was no memory
  2  the command line is wrong, or NAME is no name: 1 to 32 of a-z, 0-9 and -"#;

pub(crate) const MAN_ABOUT: &str = "Prints the manual page";

pub(crate) const MAN_LONG_ABOUT: &str = "Prints the manual page, as roff: all that help tells.";

pub(crate) const MAN_EXAMPLES: &str = "Examples:
  landmap man | man -l -
    shows it

Exit status:
  0  it is printed
  1  one line on standard error says why not: `landmap: cannot write`, or
     `landmap: V4` where there was no memory
  2  the command line is wrong";

pub(crate) const COMPLETIONS_ABOUT: &str = "Prints what a shell needs to complete command lines";

pub(crate) const COMPLETIONS_LONG_ABOUT: &str =
    "Prints what a shell needs to complete command lines of landmap.";

pub(crate) const SHELL_HELP: &str = "The shell: bash, zsh or fish";

pub(crate) const COMPLETIONS_EXAMPLES: &str = "Examples:
  source <(landmap completions bash)
  landmap completions zsh > ~/.zfunc/_landmap
  landmap completions fish > ~/.config/fish/completions/landmap.fish

Exit status:
  0  it is printed
  1  one line on standard error says why not: `landmap: cannot write`, or
     `landmap: V4` where there was no memory
  2  the command line is wrong, or the shell is another one";
